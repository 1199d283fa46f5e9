// How far the eating has come, and its steps from one moment at which limits are full to the next. Problems, trees and
// names of sets are unknown here: there are lines, and limits by number.

ghost use Rattle.std.specs.Prelude.{◌≡◌, ℕ, ◌+◌, ◌*◌, ◌<◌, ◌≤◌, ◌^◌, ◌==◌, length, slice_index, slice_set, count_by, All, IfOk, IfErr, OnOk};
ghost use Rattle.definitions.specs.Eating.{IsEatingTable, IsLowestTerms};
ghost use Rattle.definitions.specs.Values.{Market};
ghost use Rattle.eating_laws.proofs.Holders.{least_of};
ghost use Rattle.frac128.specs.Fraction.{denominator};
ghost use Rattle.frac128.specs.Lcm.{IsBeyond};
ghost use Rattle.eating.specs.Answers.{IsTooFineIn};
ghost use Rattle.eating.specs.Plan.{AreLines, IsLine};
ghost use Rattle.eating.specs.Seats.{IsSeat, IsSoFar, seat_speed};
ghost use Rattle.eating.specs.Steps.{IsAdvanced};
ghost use Rattle.eating.specs.Runs.{AreDue, AreLimitsAdvanced, CanGoOn, IsEarliestMoment, IsHeld, IsMoving, IsNextMoment, IsRun, IsRunOf, IsSeated, IsStartOver, IsSteady, IsStepTo, LeavesEnough};

use crate::due::Due;
use crate::plan::Line;
use frac128::{Beyond, Fraction, lcm_within};
use key_queue::Queue;
use std::alloc::{AllocError, Global};

/// The greatest denominator that isn't too fine.
const FINEST: u128 = 1 << 116;

/// The table up to a moment. All amounts and moments are whole numbers over `unit`, the least common denominator
/// of the moments so far. A limit that isn't full yet has the unit as its moment.
#[derive(Drop)]
pub(crate) struct Progress {
    pub unit: u128,
    pub at: u128,
    /// By limit: the moment at which it is full.
    pub moments: Vec<u128>,
    /// By limit: what its ceiling leaves, while it isn't full.
    pub rests: Vec<u128>,
    /// By limit: how fast it is eaten.
    pub speeds: Vec<u32>,
    /// By agent: the place of its list that it eats.
    pub places: Vec<usize>,
    /// By limit: when it is full, at its rest and its speed.
    pub dues: Queue<Due>,
}

/// A step from one moment to the next: `step` over the old unit times `factor`, up to `at`.
#[derive(Clone, Copy)]
struct Step {
    unit: u128,
    factor: u128,
    step: u128,
    at: u128,
}

impl Step {
    /// The moment and the rest of a limit after the step. If nothing of it is left, it is full then.
    fn limit(self, moment: u128, rest: u128, speed: u128) -> (u128, u128)
        requires moment { moment ≤ self.unit }
        requires unit { self.factor * self.unit ≤ 2 ^ 116 }
        requires rest { moment ≡ self.unit → rest ≤ 1000 * self.unit }
        requires slow { moment ≡ self.unit → speed * self.step ≤ self.factor * rest }
        ensures { IsAdvanced self.unit self.factor self.step self.at
            moment rest speed result.0 result.1 }
    {
        if moment != self.unit {
            return (self.factor * moment, rest);
        }
        let left = self.factor * rest - speed * self.step;
        if left == 0 {
            (self.at, left)
        } else {
            (self.factor * self.unit, left)
        }
    }
}

/// The least of the unit and the moments of these limits.
pub(crate) fn least_of(holders: &[u32], moments: &[u128], unit: u128) -> u128
    requires { All (λ h. h < length moments.now) holders.now }
    ensures { result ≡ least_of unit moments.now holders.now }
{
    let mut least = unit;
    for limit in holders {
        least = least.min(moments[*limit as usize]);
    }
    least
}

/// The first place from `start` on whose limits are all open.
fn first_open(line: &Line, start: usize, moments: &[u128], unit: u128) -> usize
    requires line { IsLine (length moments.now) line.now }
    requires start { IsSoFar unit moments.now line.now start }
    ensures { IsSeat unit moments.now line.now result }
{
    let mut place = start;
    while least_of(line.holders(place), moments, unit) < unit {
        place += 1;
    }
    place
}

impl Progress {
    /// Nothing is eaten: each limit is open with its ceiling left, and each agent is at its first place, without a speed.
    pub fn start(alloc: Global, ceilings: Vec<u128>, agents: usize) -> Result<Progress, AllocError>
        requires { length ceilings.items < 2 ^ 32 }
        ensures { IfOk result (IsStartOver ceilings.items agents) }
    {
        let unit = 1;
        let limits = ceilings.len();
        Ok(Progress {
            unit,
            at: 0,
            moments: vec![in alloc; unit; limits]?,
            rests: ceilings,
            speeds: vec![in alloc; 0; limits]?,
            places: vec![in alloc; 0; agents]?,
            dues: Queue::of(alloc, limits as u32, Due::NEVER)?,
        })
    }

    /// The earliest moment before the end at which an open limit is full, where there is one.
    fn next_moment(&self) -> Option<Fraction>
        requires { AreDue self.now }
        ensures { IsNextMoment self.now result }
    {
        if self.dues.len() == 0 {
            return None;
        }
        self.dues.key(self.dues.top()).moment
    }

    /// Goes on by `step` over the unit times `factor`. A limit of which nothing is left is full now, and never due again.
    fn advance(&mut self, factor: u128, step: u128)
        requires within { CanGoOn self.old }
        requires dues { AreDue self.old }
        requires positive { 1 ≤ factor }
        requires before_end { factor * self.old.at + step < factor * self.old.unit }
        requires fine { factor * self.old.unit ≤ 2 ^ 116 }
        requires slow { LeavesEnough self.old factor step }
        ensures unit { self.new.unit ≡ factor * self.old.unit }
        ensures at { self.new.at ≡ factor * self.old.at + step }
        ensures limits { AreLimitsAdvanced self.old self.new factor step }
        ensures speeds { self.new.speeds.items ≡ self.old.speeds.items }
        ensures places { self.new.places.items ≡ self.old.places.items }
        ensures steady { IsSteady self.new }
        ensures dues { AreDue self.new }
    {
        let taken = Step {
            unit: self.unit,
            factor,
            step,
            at: factor * self.at + step,
        };
        for limit in 0..self.moments.len() {
            let speed = self.speeds[limit] as u128;
            let (moment, rest) = taken.limit(self.moments[limit], self.rests[limit], speed);
            self.moments[limit] = moment;
            self.rests[limit] = rest;
            if moment == taken.at {
                self.dues.set_key(limit as u32, Due::NEVER);
            }
        }
        self.unit *= factor;
        self.at = taken.at;
    }

    /// Gives a limit another speed, and with it another moment at which it is due.
    fn set_speed(&mut self, limit: u32, speed: u32)
        requires steady { IsSteady self.old }
        requires dues { AreDue self.old }
        requires limit { limit < length self.old.moments.items }
        requires speed { speed ≤ 1000 }
        ensures speeds { self.new.speeds.items ≡ slice_set self.old.speeds.items limit speed }
        ensures places { self.new.places.items ≡ self.old.places.items }
        ensures held { IsHeld self.old self.new }
        ensures dues { AreDue self.new }
    {
        let index = limit as usize;
        self.speeds[index] = speed;
        if self.moments[index] != self.unit {
            return;
        }
        let due = Due::of(self.rests[index], speed as u128, self.unit, self.at);
        self.dues.set_key(limit, due);
    }

    /// Adds a demand to the speed of each of these limits.
    fn add_speed(&mut self, holders: &[u32], demand: u32)
        requires steady { IsSteady self.old }
        requires dues { AreDue self.old }
        requires inside { All (λ h. h < length self.old.moments.items) holders.now }
        requires room { (j : ℕ) → slice_index self.old.speeds.items j
            + demand * count_by (λ h. h == j) holders.now ≤ 1000 }
        ensures speeds { (j : ℕ) → slice_index self.new.speeds.items j
            ≡ slice_index self.old.speeds.items j + demand * count_by (λ h. h == j) holders.now }
        ensures places { self.new.places.items ≡ self.old.places.items }
        ensures held { IsHeld self.old self.new }
        ensures dues { AreDue self.new }
    {
        for limit in holders {
            let speed = self.speeds[*limit as usize] + demand;
            self.set_speed(*limit, speed);
        }
    }

    /// Takes a demand off the speed of each of these limits.
    fn take_speed(&mut self, holders: &[u32], demand: u32)
        requires steady { IsSteady self.old }
        requires dues { AreDue self.old }
        requires inside { All (λ h. h < length self.old.moments.items) holders.now }
        requires eaten { (j : ℕ) → demand * count_by (λ h. h == j) holders.now
            ≤ slice_index self.old.speeds.items j }
        requires slow { (j : ℕ) → slice_index self.old.speeds.items j ≤ 1000 }
        ensures speeds { (j : ℕ) → slice_index self.new.speeds.items j
            + demand * count_by (λ h. h == j) holders.now ≡ slice_index self.old.speeds.items j }
        ensures places { self.new.places.items ≡ self.old.places.items }
        ensures held { IsHeld self.old self.new }
        ensures dues { AreDue self.new }
    {
        for limit in holders {
            let speed = self.speeds[*limit as usize] - demand;
            self.set_speed(*limit, speed);
        }
    }

    /// Has each agent eat at the first place of its list.
    fn sit_down(&mut self, lines: &[Line])
        requires lines { AreLines (length self.old.moments.items) lines.now }
        requires steady { IsSteady self.old }
        requires dues { AreDue self.old }
        requires many { length self.old.places.items ≡ length lines.now }
        requires first { (i : ℕ) → slice_index self.old.places.items i ≡ 0 }
        requires zero { (j : ℕ) → slice_index self.old.speeds.items j ≡ 0 }
        ensures speeds { (j : ℕ) → slice_index self.new.speeds.items j
            ≡ seat_speed lines.now self.old.places.items j }
        ensures places { self.new.places.items ≡ self.old.places.items }
        ensures held { IsHeld self.old self.new }
        ensures dues { AreDue self.new }
    {
        for agent in 0..lines.len() {
            let line = &lines[agent];
            self.add_speed(line.holders(0), line.demand());
        }
    }

    /// Moves an agent on to its first open place, if it isn't there.
    fn move_on(&mut self, lines: &[Line], agent: usize)
        requires lines { AreLines (length self.old.moments.items) lines.now }
        requires agent { agent < length lines.now }
        requires moving { IsMoving lines.now agent self.old }
        ensures moving { IsMoving lines.now (agent + 1) self.new }
        ensures held { IsHeld self.old self.new }
    {
        let line = &lines[agent];
        let old = self.places[agent];
        let place = first_open(line, old, &self.moments, self.unit);
        if place == old {
            return;
        }
        self.take_speed(line.holders(old), line.demand());
        self.add_speed(line.holders(place), line.demand());
        self.places[agent] = place;
    }

    /// Moves each agent on to its first open place.
    fn seat(&mut self, lines: &[Line])
        requires lines { AreLines (length self.old.moments.items) lines.now }
        requires moving { IsMoving lines.now 0 self.old }
        ensures seated { IsSeated lines.now self.old self.new }
        ensures dues { AreDue self.new }
    {
        for agent in 0..lines.len() {
            self.move_on(lines, agent);
        }
    }

    /// Goes on to a moment, and notes the limits that are full then.
    fn go_to(&mut self, moment: Fraction) -> Result<(), Beyond>
        requires within { CanGoOn self.old }
        requires dues { AreDue self.old }
        requires earliest { IsEarliestMoment self.old moment }
        ensures step { OnOk result (IsStepTo self.old self.new moment) }
        ensures steady { OnOk result (IsSteady self.new) }
        ensures dues { OnOk result (AreDue self.new) }
        ensures beyond { IfErr result
            (λ e. IsBeyond self.old.unit (denominator moment) (2 ^ 116) e.lcm) }
    {
        let unit = lcm_within(self.unit, moment.den(), FINEST)?;
        let factor = unit / self.unit;
        let at = moment.num() * (unit / moment.den());
        self.advance(factor, at - factor * self.at);
        Ok(())
    }

    /// Eats from moment 0 to the end, in a market with these lines.
    pub fn eat(&mut self, lines: &[Line]) -> Result<(), Beyond>
        requires { IsRun lines.now self.old }
        ensures table { (market : Market) → IsRunOf market lines.now self.old
            → OnOk result (IsEatingTable market self.new.unit self.new.moments.items) }
        ensures lowest { OnOk result (IsLowestTerms self.new.unit self.new.moments.items) }
        ensures fine { OnOk result (self.new.unit ≤ 2 ^ 116) }
        ensures too_fine { (market : Market) → IsRunOf market lines.now self.old
            → IfErr result (λ e. IsTooFineIn market e.lcm) }
    {
        self.advance(1, 0);
        self.sit_down(lines);
        self.seat(lines);
        while let Some(moment) = self.next_moment() {
            self.go_to(moment)?;
            self.seat(lines);
        }
        Ok(())
    }
}
