//! What became of the entries of a bulk call, as JSON.

ghost use Rattle.serde_json.specs.View.{view};
ghost use Rattle.web_responses.specs.Results.{entry_fault_body, result_body, outcome_body, results_body};
ghost use Rattle.web_json.specs.Made.{AppendsJson, MakesJson};

use crate::faults::fault_value;
use crate::refusals::refusal_data;
use crate::responses::detail_value;
use model_commands::{Kind, Outcome, Refusal};
use model_faults::EntryFault;
use serde_json::{Value, json};
use std::alloc::{AllocError, Global};
use web_json::{WriteRow, append_key_and_list, append_text, append_value, cart_value};

/// What is wrong with an entry, as a request of its own is told it.
fn entry_fault_value(alloc: Global, fault: EntryFault) -> Result<Value, AllocError>
    ensures { MakesJson result (entry_fault_body fault) }
{
    match fault {
        EntryFault::InvalidData => detail_value(alloc, "Invalid data."),
        EntryFault::Field(fault) => fault_value(alloc, fault),
    }
}

/// The result of an entry: what is shown of it, or else what was wrong.
fn result_value(
    alloc: Global,
    shown: Value,
    errors: Value,
    success: bool,
) -> Result<Value, AllocError>
    ensures { MakesJson result (result_body (view shown) (view errors) success) }
{
    json!(in alloc; {"data": shown, "errors": errors, "success": success})
}

/// What became of an entry.
fn outcome_value(alloc: Global, outcome: &Outcome) -> Result<Value, AllocError>
    ensures { MakesJson result (outcome_body outcome.now) }
{
    match outcome {
        Outcome::Added(cart) => {
            let shown = cart_value(alloc, cart)?;
            result_value(alloc, shown, Value::Null, true)
        }
        Outcome::Refused(refusal) => {
            let errors = refusal_data(alloc, Kind::AddCart, Refusal::Order(*refusal))?;
            result_value(alloc, Value::Null, errors, false)
        }
        Outcome::Faulty(fault) => {
            let errors = entry_fault_value(alloc, *fault)?;
            result_value(alloc, Value::Null, errors, false)
        }
    }
}

/// Writes what became of each entry.
struct OutcomeWriter;

impl WriteRow<Outcome> for OutcomeWriter {
    ghost body = { λ _ outcome. outcome_body outcome };

    fn append(&self, alloc: Global, out: &mut Vec<u8>, row: &Outcome) -> Result<(), AllocError> {
        let value = outcome_value(alloc, row)?;
        append_value(alloc, out, &value)
    }
}

/// Appends the results of a bulk call.
pub(crate) fn append_results(
    alloc: Global,
    out: &mut Vec<u8>,
    outcomes: &[Outcome],
) -> Result<(), AllocError>
    ensures { AppendsJson result out.old out.new (results_body outcomes.now) }
{
    append_text(out, "{")?;
    append_key_and_list(alloc, out, "results", &OutcomeWriter, outcomes)?;
    append_text(out, "}")
}
