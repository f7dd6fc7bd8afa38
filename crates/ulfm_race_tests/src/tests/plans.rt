// The plans of races.
ghost use Rattle.std.specs.Prelude.{◌≡◌};

use ulfm_race::Plan;

/// A race of so many ranks and rounds, in which nobody is declared.
pub(crate) fn plan_of(ranks: u16, rounds: u16) -> Plan
    ensures { result ≡ record { ranks = ranks; rounds = rounds; fail = None } }
{
    Plan {
        ranks,
        rounds,
        fail: None,
    }
}
