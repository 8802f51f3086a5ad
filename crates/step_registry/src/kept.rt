//! The registry as a value that a lock of turns may hold.
use crate::event::Event;
use crate::registry::Registry;
use run_script::Job;
use turn_table::Kept;

impl Kept for Registry {
    ghost use Rattle.step_registry.specs.Core.{IsLegal};
    ghost use Rattle.step_registry.specs.SeatLaws.{maker_of, Says, says_nothing, says_longer};

    type Theme = Job;

    type Entry = Event;

    ghost theme = { λ r. r.job };

    ghost history = { λ r. r.journal };

    ghost maker = { maker_of };

    ghost fits = { IsLegal };

    ghost says = { Says };

    ghost says_nothing = { says_nothing };

    ghost says_longer = { says_longer };
}
