// The faults of the layers below as causes, so that a step hands them on by `?`.

use crate::Cause;
use alloc_input::InputRefusal;
use bihierarchy::TreesFault;
use device_core::SinkFault;
use eating::EatFault;
use lottery_file::LotteryRefusal;
use quota_sets::Infeasible;
use scaled_matrix::ScaleFault;
use seed_pact::PactRefusal;
use side_finder::SideFault;
use std::alloc::AllocFailed;

impl From<table_text::NoMemory> for Cause {
    ghost use Rattle.std.specs.Prelude.{◌≡◌};
    ghost use Rattle.alloc_outcomes.specs.declared.cause.Cause.TheVariants.{NoMemory};

    ghost from_gives = { λ _ cause. cause ≡ NoMemory };

    fn from(_: table_text::NoMemory) -> Cause {
        Cause::NoMemory
    }
}

impl From<quota_sets::NoMemory> for Cause {
    ghost use Rattle.std.specs.Prelude.{◌≡◌};
    ghost use Rattle.alloc_outcomes.specs.declared.cause.Cause.TheVariants.{NoMemory};

    ghost from_gives = { λ _ cause. cause ≡ NoMemory };

    fn from(_: quota_sets::NoMemory) -> Cause {
        Cause::NoMemory
    }
}

impl From<SideFault> for Cause {
    ghost use Rattle.std.specs.Prelude.{◌≡◌};
    ghost use Rattle.alloc_outcomes.specs.declared.cause.Cause.TheVariants.{NoMemory};

    ghost from_gives = { λ _ cause. cause ≡ NoMemory };

    fn from(fault: SideFault) -> Cause {
        match fault {
            SideFault::NoMemory => Cause::NoMemory,
        }
    }
}

impl<T: Drop> From<AllocFailed<T>> for Cause {
    ghost use Rattle.std.specs.Prelude.{◌≡◌};
    ghost use Rattle.alloc_outcomes.specs.declared.cause.Cause.TheVariants.{NoMemory};

    ghost from_gives = { λ _ cause. cause ≡ NoMemory };

    fn from(_: AllocFailed<T>) -> Cause {
        Cause::NoMemory
    }
}

impl From<SinkFault> for Cause {
    ghost use Rattle.std.specs.Prelude.{◌≡◌};
    ghost use Rattle.alloc_outcomes.specs.Causes.{sink_cause};

    ghost from_gives = { λ fault cause. cause ≡ sink_cause fault };

    fn from(fault: SinkFault) -> Cause {
        match fault {
            SinkFault::Failed => Cause::WriteFault,
            SinkFault::NoMemory => Cause::NoMemory,
        }
    }
}

impl From<InputRefusal> for Cause {
    ghost use Rattle.std.specs.Prelude.{◌≡◌};
    ghost use Rattle.alloc_outcomes.specs.Causes.{input_refusal_cause};

    ghost from_gives = { λ refusal cause. cause ≡ input_refusal_cause refusal };

    fn from(refusal: InputRefusal) -> Cause {
        match refusal {
            InputRefusal::Fault(fault) => Cause::Input(fault),
            InputRefusal::NoMemory => Cause::NoMemory,
        }
    }
}

impl From<LotteryRefusal> for Cause {
    ghost use Rattle.std.specs.Prelude.{◌≡◌};
    ghost use Rattle.alloc_outcomes.specs.Causes.{lottery_refusal_cause};

    ghost from_gives = { λ refusal cause. cause ≡ lottery_refusal_cause refusal };

    fn from(refusal: LotteryRefusal) -> Cause {
        match refusal {
            LotteryRefusal::Fault(fault) => Cause::Lottery(fault),
            LotteryRefusal::NoMemory => Cause::NoMemory,
        }
    }
}

impl From<PactRefusal> for Cause {
    ghost use Rattle.std.specs.Prelude.{◌≡◌};
    ghost use Rattle.alloc_outcomes.specs.Causes.{pact_refusal_cause};

    ghost from_gives = { λ refusal cause. cause ≡ pact_refusal_cause refusal };

    fn from(refusal: PactRefusal) -> Cause {
        match refusal {
            PactRefusal::Fault(fault) => Cause::Pact(fault),
            PactRefusal::NoMemory => Cause::NoMemory,
        }
    }
}

impl From<TreesFault> for Cause {
    ghost use Rattle.std.specs.Prelude.{◌≡◌};
    ghost use Rattle.alloc_outcomes.specs.Causes.{trees_cause};

    ghost from_gives = { λ fault cause. cause ≡ trees_cause fault };

    fn from(fault: TreesFault) -> Cause {
        match fault {
            TreesFault::Crossing { first, second } => Cause::Crossing { first, second },
            TreesFault::NoMemory => Cause::NoMemory,
        }
    }
}

impl From<ScaleFault> for Cause {
    ghost use Rattle.std.specs.Prelude.{◌≡◌};
    ghost use Rattle.alloc_outcomes.specs.Causes.{scale_cause};

    ghost from_gives = { λ fault cause. cause ≡ scale_cause fault };

    fn from(fault: ScaleFault) -> Cause {
        match fault {
            ScaleFault::TooFine { denominator, .. } => Cause::TooFine { denominator },
            ScaleFault::OverTotal { agent, column } => Cause::OverTotal { agent, column },
            ScaleFault::NoMemory => Cause::NoMemory,
        }
    }
}

impl From<Infeasible> for Cause {
    ghost use Rattle.std.specs.Prelude.{◌≡◌};
    ghost use Rattle.alloc_outcomes.specs.Causes.{infeasible_cause};

    ghost from_gives = { λ first cause. cause ≡ infeasible_cause first };

    fn from(first: Infeasible) -> Cause {
        Cause::Infeasible {
            set: first.set,
            sum: first.sum,
        }
    }
}

impl From<EatFault> for Cause {
    ghost use Rattle.std.specs.Prelude.{◌≡◌};
    ghost use Rattle.alloc_outcomes.specs.Causes.{eat_fault_cause};

    ghost from_gives = { λ fault cause. cause ≡ eat_fault_cause fault };

    fn from(fault: EatFault) -> Cause {
        match fault {
            EatFault::TooFine { denominator } => Cause::TooFine { denominator },
            EatFault::NoMemory => Cause::NoMemory,
        }
    }
}
