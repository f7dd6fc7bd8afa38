//! The names of atomic steps, as scripts write them.
ghost use Rattle.std.specs.Prelude.{◌≡◌, Ok, IfOk};
ghost use Rattle.ulfm_model.specs.declared.step_name.StepName.{StepName};
ghost use Rattle.ulfm_lines.specs.StepNames.{read_step_name, step_text};

use ulfm_model::step_name::StepName;
use ulfm_script::LineKind;

/// The name of a step as scripts write it, as `settle`.
pub fn step_word(name: StepName) -> &'static [u8]
    ensures { result.now ≡ step_text name }
{
    match name {
        StepName::List => b"list",
        StepName::Settle => b"settle",
        StepName::Block => b"block",
        StepName::Mark => b"mark",
        StepName::Slot => b"slot",
        StepName::Cache => b"cache",
        StepName::Wing => b"wing",
        StepName::Comm => b"comm",
        StepName::Spawn => b"spawn",
        StepName::Arrive => b"arrive",
        StepName::Arrival => b"arrival",
        StepName::Revoke => b"revoke",
        StepName::Revocation => b"revocation",
    }
}

/// The name that a word spells, or the fault `Step`.
pub fn read_step_name(word: &[u8]) -> Result<StepName, LineKind>
    ensures found { IfOk result (λ name. word.now ≡ step_text name) }
    ensures only { (name : StepName) → word.now ≡ step_text name → result ≡ Ok name }
    ensures exact { result ≡ read_step_name word.now }
{
    parse_name(word)
}

#[tactic(auto, unfolding(crate::specs::StepNames::read_step_name))]
fn parse_name(word: &[u8]) -> Result<StepName, LineKind>
    ensures { result ≡ read_step_name word.now }
{
    let names = [
        StepName::List,
        StepName::Settle,
        StepName::Block,
        StepName::Mark,
        StepName::Slot,
        StepName::Cache,
        StepName::Wing,
        StepName::Comm,
        StepName::Spawn,
        StepName::Arrive,
        StepName::Arrival,
        StepName::Revoke,
        StepName::Revocation,
    ];
    for name in &names {
        if word == step_word(*name) {
            return Ok(*name);
        }
    }
    Err(LineKind::Step)
}
