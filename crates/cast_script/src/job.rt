//! The jobs of a script.
ghost use Rattle.std.specs.Prelude.{map};
ghost use Rattle.serde_json.specs.View.{view};
ghost use Rattle.cast_script.specs.Element.{job_of, job_at, items_of};
ghost use Rattle.cast_script.specs.Unread.{Gives};

use crate::element::{Element, Unread, node, places};
use crate::item::item;
use cast_message::{Item, List, NodeId};
use serde_json::Value;
use std::alloc::Global;

impl Element for (NodeId, List<Item>) {
    ghost element = { job_of };

    fn read(alloc: Global, value: &Value) -> Result<(NodeId, List<Item>), Unread> {
        let places = places(value).ok_or(Unread::Shape)?;
        job(alloc, places)
    }
}

fn job(alloc: Global, values: &[Value]) -> Result<(NodeId, List<Item>), Unread>
    ensures { Gives result (job_at (map view values.now)) }
{
    let [place, list] = values else {
        return Err(Unread::Shape);
    };
    let node = node(place).ok_or(Unread::Shape)?;
    let list = places(list).ok_or(Unread::Shape)?;
    let items = items(alloc, list)?;
    Ok((node, items))
}

// The items that the values are, each an array.
fn items(alloc: Global, values: &[Value]) -> Result<List<Item>, Unread>
    ensures { Gives result (items_of (map view values.now)) }
{
    let mut items = List::new(alloc);
    for value in values {
        let places = places(value).ok_or(Unread::Shape)?;
        items.push(item(alloc, places)?)?;
    }
    Ok(items)
}
