//! How a journal keeps nodes: each as its image, and the batches of its events.
use crate::redoing::redo;
use disk_shelf::{HEAD, Persist};
use ids::Refusal;
use image::{from_any_bytes, to_bytes_behind, to_logged_behind};
use node::Node;
use std::alloc::Global;

/// [`Persist`] for nodes. In a node's image everything that it sent and received counts as saved;
/// early messages aren't in it. A node is read from an image of any version, whether a log follows
/// it or not.
pub struct Images;

impl Persist for Images {
    ghost use Rattle.image.specs.Logged.{IsAnyWholeOf};
    ghost use Rattle.image.specs.Wholes.{IsWholeTooLarge, saved_whole};
    ghost use Rattle.image_parts.specs.Logs.{begins_logged};
    ghost use Rattle.node_store.specs.Values.{IsAlone, LeadsWhole, whole_image_by};
    ghost use Rattle.node_store.specs.Laws.{read_alone, led_alone, followed, one_whole, one_led};

    type Value = Node;

    ghost image = { whole_image_by };

    ghost reads = { IsAnyWholeOf };

    ghost saved = { saved_whole };

    ghost too_large = { IsWholeTooLarge };

    ghost logs = { begins_logged };

    ghost leads = { LeadsWhole };

    ghost fresh = { IsAlone };

    fn to_bytes(alloc: Global, logged: bool, value: &Node) -> Result<Vec<u8>, Refusal> {
        let bytes = Vec::new(alloc);
        if logged {
            to_logged_behind(bytes, &[0; HEAD], value)
        } else {
            to_bytes_behind(bytes, &[0; HEAD], value)
        }
    }

    fn from_bytes(alloc: Global, bytes: &[u8]) -> Result<Node, Refusal> {
        from_any_bytes(alloc, bytes)
    }

    fn has_log(image: &[u8]) -> bool {
        image_parts::begins_logged(image)
    }

    fn redo(value: &mut Node, batch: &[u8]) -> Result<(), Refusal> {
        redo(value, batch)
    }

    ghost read_fresh = { read_alone };

    ghost led_fresh = { led_alone };

    ghost followed = { followed };

    ghost one_value = { one_whole };

    ghost one_end = { one_led };
}
