//! Performs the events of a log again, on the node that was saved before them.
ghost use Rattle.std.specs.Prelude.{◌≡◌, ◌≢◌, IfErr, OnOk};
ghost use Rattle.ids.specs.declared.refusal.Refusal.TheVariants.{BadImage, Memory};
ghost use Rattle.model.specs.View.{NodeView};
ghost use Rattle.node.specs.Keeping.{WholeNode, alone};
ghost use Rattle.node_store.specs.Logs.{IsDone};
ghost use Rattle.node_store.specs.Values.{IsAlone, LeadsWhole};

use codec::Reader;
use event_bytes::read_event;
use ids::Refusal;
use model::Event;
use node::Node;

// Performs an event of a log. Fails with `BadImage` if the event isn't answered.
fn perform(node: &mut Node, event: &Event) -> Result<(), Refusal>
    requires { IsAlone node.old }
    ensures done { OnOk result (IsDone node.old.core event.now node.new.core) }
    ensures alone { OnOk result (IsAlone node.new) }
    ensures refused { IfErr result (λ e. e ≢ Memory → (e ≡ BadImage)
        × ((m : NodeView) → IsDone node.old.core event.now m → ⊥)) }
{
    let answer = match node.act(event) {
        Ok(answer) => answer,
        Err(Refusal::Memory) => return Err(Refusal::Memory),
        Err(_) => return Err(Refusal::BadImage),
    };
    if !answer.is_change() {
        return Err(Refusal::BadImage);
    }
    Ok(())
}

// Performs the events of a batch, after which everything counts as saved.
pub(crate) fn redo(node: &mut Node, batch: &[u8]) -> Result<(), Refusal>
    requires { IsAlone node.old }
    ensures led { OnOk result (LeadsWhole batch.now node.old node.new) }
    ensures refused { IfErr result (λ e. e ≢ Memory → (e ≡ BadImage)
        × ((last : WholeNode) → LeadsWhole batch.now node.old last → ⊥)) }
{
    let mut reader = Reader::new(batch);
    while !reader.finish() {
        let read = read_event(node.core().allocator(), &mut reader)?;
        let Some(event) = read else {
            return Err(Refusal::BadImage);
        };
        if !reader.is_open() {
            return Err(Refusal::BadImage);
        }
        let done = perform(node, &event);
        drop(event);
        done?;
    }
    node.mark_saved();
    Ok(())
}
