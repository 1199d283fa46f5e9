// The forms of the words.
ghost use Rattle.std.specs.Prelude.{◌≡◌, ◌+◌, ◌≤◌, map, string_bytes, length, IfSome};
ghost use Rattle.alloc_cli.specs.Words.{alone_of, command_of, file_count, form_of_one, form_of_three, form_of_two, generate_of, none_of, one_of, pact_commit_of, pair_of, size_of, three_of, two_of, IsWithinLimits};

use crate::seed::read_seed;
use crate::short_name::ShortName;
use table_text::read_count;

/// A command on no file.
#[derive(Clone, Copy, Debug, PartialEq, Eq)]
pub enum NoFile {
    /// `generate SEED AGENTS OBJECTS`, of 1 to 1,000 agents and 1 to 200 objects
    Generate {
        seed: [u8; 32],
        agents: u32,
        objects: u32,
    },
    /// `pact-commit NAME CONTRIBUTION`
    PactCommit {
        name: ShortName,
        contribution: [u8; 32],
    },
}

/// A command on one file.
#[derive(Clone, Copy, Debug, PartialEq, Eq)]
pub enum OneFile {
    /// `pick LOTTERY TICKET`
    Pick { ticket: u128 },
    /// `draw LOTTERY SEED`
    Draw { seed: [u8; 32] },
    /// `report LOTTERY`
    Report,
}

/// A command on two files.
#[derive(Clone, Copy, Debug, PartialEq, Eq)]
pub enum TwoFiles {
    /// `sets PREFS QUOTAS`
    Sets,
    /// `table PREFS QUOTAS`
    Table,
    /// `decompose MATRIX QUOTAS`
    Decompose,
    /// `sides MATRIX QUOTAS`
    Sides,
    /// `decompose-free MATRIX QUOTAS`
    DecomposeFree,
    /// `solve PREFS QUOTAS`
    Solve,
    /// `pact-draw LOTTERY PACT`
    PactDraw,
    /// `solve-guarded PREFS QUOTAS`
    SolveGuarded,
}

/// A command on three files.
#[derive(Clone, Copy, Debug, PartialEq, Eq)]
pub enum ThreeFiles {
    /// `audit PREFS QUOTAS LOTTERY`
    Audit,
    /// `audit-matrix MATRIX QUOTAS LOTTERY`
    AuditMatrix,
    /// `envy PREFS QUOTAS LOTTERY`
    Envy,
    /// `audit-guarded PREFS QUOTAS LOTTERY`
    AuditGuarded,
}

/// What the words ask for. The files of a command are the words after its name, in order.
#[derive(Clone, Copy, Debug, PartialEq, Eq)]
pub enum Command {
    Zero(NoFile),
    One(OneFile),
    Two(TwoFiles),
    Three(ThreeFiles),
}

impl Command {
    /// How many files it loads.
    pub fn file_count(self) -> usize
        ensures { result ≡ file_count self }
    {
        match self {
            Command::Zero(_) => 0,
            Command::One(_) => 1,
            Command::Two(_) => 2,
            Command::Three(_) => 3,
        }
    }
}

// A number of agents or of objects, from 1 to this limit.
fn read_size(word: &str, limit: u32) -> Option<u32>
    ensures { result ≡ size_of limit word.now }
{
    let size = read_count(word.as_bytes())?;
    if size < 1 || size > limit as u128 {
        return None;
    }
    Some(size as u32)
}

// `generate`, by the words after its name.
fn parse_generate(seed: &str, agents: &str, objects: &str) -> Option<NoFile>
    ensures { result ≡ generate_of seed.now agents.now objects.now }
{
    let seed = read_seed(seed)?;
    let agents = read_size(agents, 1_000)?;
    let objects = read_size(objects, 200)?;
    Some(NoFile::Generate {
        seed,
        agents,
        objects,
    })
}

// `pact-commit`, by the words after its name.
fn parse_pact_commit(name: &str, contribution: &str) -> Option<NoFile>
    ensures form { result ≡ pact_commit_of name.now contribution.now }
    ensures limits { IfSome result (λ command. IsWithinLimits (Command.Zero command)) }
{
    let name = ShortName::of(name)?;
    let contribution = read_seed(contribution)?;
    Some(NoFile::PactCommit { name, contribution })
}

// The command on no file of this name, and of the two words after it.
fn parse_pair(name: &str, first: &str, second: &str) -> Option<NoFile>
    ensures form { result ≡ pair_of name.now first.now second.now }
    ensures limits { IfSome result (λ command. IsWithinLimits (Command.Zero command)) }
{
    match name {
        "pact-commit" => parse_pact_commit(first, second),
        _ => None,
    }
}

// The command on no file of this name, and of the three words after it.
fn parse_none(name: &str, first: &str, second: &str, third: &str) -> Option<NoFile>
    ensures { result ≡ none_of name.now first.now second.now third.now }
{
    match name {
        "generate" => parse_generate(first, second, third),
        _ => None,
    }
}

// The command on one file alone of this name.
fn parse_alone(name: &str) -> Option<OneFile>
    ensures { result ≡ alone_of name.now }
{
    match name {
        "report" => Some(OneFile::Report),
        _ => None,
    }
}

// The command on one file of this name, and of the word after the file.
fn parse_one(name: &str, word: &str) -> Option<OneFile>
    ensures { result ≡ one_of name.now word.now }
{
    match name {
        "pick" => {
            let ticket = read_count(word.as_bytes())?;
            Some(OneFile::Pick { ticket })
        }
        "draw" => {
            let seed = read_seed(word)?;
            Some(OneFile::Draw { seed })
        }
        _ => None,
    }
}

// The command on two files of this name.
fn parse_two(name: &str) -> Option<TwoFiles>
    ensures { result ≡ two_of name.now }
{
    match name {
        "sets" => Some(TwoFiles::Sets),
        "table" => Some(TwoFiles::Table),
        "decompose" => Some(TwoFiles::Decompose),
        "sides" => Some(TwoFiles::Sides),
        "decompose-free" => Some(TwoFiles::DecomposeFree),
        "solve" => Some(TwoFiles::Solve),
        "pact-draw" => Some(TwoFiles::PactDraw),
        "solve-guarded" => Some(TwoFiles::SolveGuarded),
        _ => None,
    }
}

// The command on three files of this name.
fn parse_three(name: &str) -> Option<ThreeFiles>
    ensures { result ≡ three_of name.now }
{
    match name {
        "audit" => Some(ThreeFiles::Audit),
        "audit-matrix" => Some(ThreeFiles::AuditMatrix),
        "envy" => Some(ThreeFiles::Envy),
        "audit-guarded" => Some(ThreeFiles::AuditGuarded),
        _ => None,
    }
}

// The command of this name and one more word.
fn parse_with_one(name: &str) -> Option<Command>
    ensures { result ≡ form_of_one name.now }
{
    Some(Command::One(parse_alone(name)?))
}

// The command of this name and two more words.
fn parse_with_two(name: &str, first: &str, second: &str) -> Option<Command>
    ensures form { result ≡ form_of_two name.now first.now second.now }
    ensures limits { IfSome result IsWithinLimits }
{
    if let Some(command) = parse_two(name) {
        return Some(Command::Two(command));
    }
    match parse_one(name, second) {
        Some(command) => Some(Command::One(command)),
        None => Some(Command::Zero(parse_pair(name, first, second)?)),
    }
}

// The command of this name and three more words.
fn parse_with_three(name: &str, first: &str, second: &str, third: &str) -> Option<Command>
    ensures { result ≡ form_of_three name.now first.now second.now third.now }
{
    match parse_three(name) {
        Some(command) => Some(Command::Three(command)),
        None => Some(Command::Zero(parse_none(name, first, second, third)?)),
    }
}

/// The command that the words are a form of.
pub fn parse(words: &[String]) -> Option<Command>
    ensures form { result ≡ command_of (map string_bytes words.now) }
    ensures files { IfSome result (λ command. file_count command + 1 ≤ length words.now) }
    ensures limits { IfSome result IsWithinLimits }
{
    match words {
        [name, _] => parse_with_one(name.as_str()),
        [name, first, second] => parse_with_two(name.as_str(), first.as_str(), second.as_str()),
        [name, first, second, third] => {
            parse_with_three(
                name.as_str(),
                first.as_str(),
                second.as_str(),
                third.as_str(),
            )
        }
        _ => None,
    }
}
