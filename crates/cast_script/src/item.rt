//! The items of a script.
ghost use Rattle.std.specs.Prelude.{◌≡◌, map, option_map};
ghost use Rattle.cast_message.specs.declared.message.Item.TheVariants.{Data};
ghost use Rattle.cast_record.specs.Unhex.{unhex};
ghost use Rattle.serde_json.specs.View.{view};
ghost use Rattle.cast_script.specs.Element.{item_of, data_of, proposal_of, close_of};
ghost use Rattle.cast_script.specs.Unread.{Gives};

use crate::element::Unread;
use bytes::Bytes;
use cast_message::{Item, Payload};
use cast_record::bytes_of;
use serde_json::Value;
use std::alloc::Global;

pub fn item(alloc: Global, places: &[Value]) -> Result<Item, Unread>
    ensures { Gives result (item_of (map view places.now)) }
{
    let (word, others) = places.split_first().ok_or(Unread::Shape)?;
    match word.as_str().ok_or(Unread::Shape)? {
        "data" => data(alloc, others),
        "propose" => proposal(others).ok_or(Unread::Shape),
        "close" => close(others).ok_or(Unread::Shape),
        _ => Err(Unread::Shape),
    }
}

fn data(alloc: Global, places: &[Value]) -> Result<Item, Unread>
    ensures { Gives result (data_of (map view places.now)) }
{
    let [place] = places else {
        return Err(Unread::Shape);
    };
    data_item(alloc, place.as_str().ok_or(Unread::Shape)?)
}

pub fn data_item(alloc: Global, digits: &str) -> Result<Item, Unread>
    ensures { Gives result (option_map Data (unhex digits.now)) }
{
    let bytes = bytes_of(alloc, digits.as_bytes())?.ok_or(Unread::Shape)?;
    Ok(Item::Data(Payload::new(Bytes::from_vec(bytes)?)))
}

fn proposal(places: &[Value]) -> Option<Item>
    ensures { result ≡ proposal_of (map view places.now) }
{
    let [instance, value] = places else {
        return None;
    };
    Some(Item::Propose {
        instance: instance.as_u64()?,
        value: value.as_u64()?,
    })
}

fn close(places: &[Value]) -> Option<Item>
    ensures { result ≡ close_of (map view places.now) }
{
    places.is_empty().then_some(Item::Close)
}
