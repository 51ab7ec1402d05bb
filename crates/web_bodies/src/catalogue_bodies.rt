//! The bodies of items, variations and quotas, field by field. Only the first fault is answered.

ghost use Rattle.std.specs.Prelude.{◌≡◌};
ghost use Rattle.web_fields.specs.Reading.{Reads};
ghost use Rattle.web_bodies.specs.CatalogueBodies.{variation_of, variation_entry, variation_list, variations_of, item_of, item_patch_of, size_of, quota_of, new_size, quota_patch_of};
ghost use Rattle.serde_json.specs.View.{view};

use crate::copies::copied;
use base_values::{List, MOST_PLACES, Size, Text};
use model_catalogue::{ItemPatch, NewItem, NewQuota, NewVariation, QuotaPatch};
use model_faults::Field;
use serde_json::Value;
use std::alloc::Global;
use web_fields::{
    BodyFault, ReadError, Reading, entries, entry_object, ids_or_none, list, money, name, nullable,
    optional_money, patched_money, patched_name, patched_truth, patched_whole_or_null, present,
    required_value, truth_or, whole,
};

/// A new variation.
#[tactic(auto, unfolding(crate::specs::CatalogueBodies::variation_of))]
pub fn variation_of(alloc: Global, body: &Value) -> Result<NewVariation, ReadError>
    ensures { Reads result (variation_of (view body.now)) }
{
    let name = name(Field::Value, required_value(Field::Value, body)?)?;
    let default_price = optional_money(Field::DefaultPrice, body)?;
    let active = truth_or(Field::Active, true, body)?;
    Ok(NewVariation {
        name: Text::copy_of(alloc, name)?,
        default_price,
        active,
    })
}

// Entries that are variations of a new item. All their faults are faults of the list.
#[derive(Drop)]
struct AreVariations;

impl Reading<NewVariation> for AreVariations {
    ghost reading = { λ r d. variation_entry d };

    fn read(&self, alloc: Global, entry: &Value) -> Result<NewVariation, ReadError> {
        let body = entry_object(Field::Variations, entry)?;
        match variation_of(alloc, body) {
            Ok(new) => Ok(new),
            Err(ReadError::Memory) => Err(ReadError::Memory),
            Err(ReadError::Body(fault)) => Err(ReadError::Body(fault.of(Field::Variations))),
        }
    }
}

/// A list of variations.
fn variation_list(alloc: Global, value: &Value) -> Result<List<NewVariation>, ReadError>
    ensures { Reads result (variation_list (view value.now)) }
{
    let found = entries(alloc, &AreVariations, list(Field::Variations, value)?)?;
    Ok(List::new(found))
}

/// The variations of a new item.
fn variations_of(alloc: Global, body: &Value) -> Result<List<NewVariation>, ReadError>
    ensures { Reads result (variations_of (view body.now)) }
{
    match present(Field::Variations, body)? {
        None => Ok(List::new(Vec::new(alloc))),
        Some(value) => variation_list(alloc, value),
    }
}

/// A new item.
#[tactic(auto, unfolding(crate::specs::CatalogueBodies::item_of))]
pub fn item_of(alloc: Global, body: &Value) -> Result<NewItem, ReadError>
    ensures { Reads result (item_of (view body.now)) }
{
    let name = name(Field::Name, required_value(Field::Name, body)?)?;
    let default_price = money(
        Field::DefaultPrice,
        required_value(Field::DefaultPrice, body)?,
    )?;
    let active = truth_or(Field::Active, true, body)?;
    let variations = variations_of(alloc, body)?;
    Ok(NewItem {
        name: Text::copy_of(alloc, name)?,
        default_price,
        active,
        variations,
    })
}

/// A change of an item.
#[tactic(auto, unfolding(crate::specs::CatalogueBodies::item_patch_of))]
pub fn item_patch_of(alloc: Global, body: &Value) -> Result<ItemPatch, ReadError>
    ensures { Reads result (item_patch_of (view body.now)) }
{
    let name = patched_name(Field::Name, body)?;
    let default_price = patched_money(Field::DefaultPrice, body)?;
    let active = patched_truth(Field::Active, body)?;
    Ok(ItemPatch {
        name: copied(alloc, name)?,
        default_price,
        active,
    })
}

/// The size of a quota: none where it is null.
fn size_of(body: &Value) -> Result<Option<Size>, BodyFault>
    ensures { result ≡ size_of (view body.now) }
{
    match nullable(Field::Size, body)? {
        None => Ok(None),
        Some(value) => {
            let places = whole(Field::Size, 0, MOST_PLACES, value)?;
            Ok(Some(Size::new(places as u32)))
        }
    }
}

/// A new quota. Where nothing says that it releases places, it keeps them.
#[tactic(auto, unfolding(crate::specs::CatalogueBodies::quota_of))]
pub fn quota_of(alloc: Global, body: &Value) -> Result<NewQuota, ReadError>
    ensures { Reads result (quota_of (view body.now)) }
{
    let name = name(Field::Name, required_value(Field::Name, body)?)?;
    let size = size_of(body)?;
    let items = ids_or_none(alloc, Field::Items, body)?;
    let variations = ids_or_none(alloc, Field::Variations, body)?;
    let release_after_exit = truth_or(Field::ReleaseAfterExit, false, body)?;
    Ok(NewQuota {
        name: Text::copy_of(alloc, name)?,
        release_after_exit,
        size,
        items,
        variations,
    })
}

/// The new size of a quota, where it is given: none where it is null.
fn new_size(body: &Value) -> Result<Option<Option<Size>>, BodyFault>
    ensures { result ≡ new_size (view body.now) }
{
    match patched_whole_or_null(Field::Size, 0, MOST_PLACES, body)? {
        None => Ok(None),
        Some(None) => Ok(Some(None)),
        Some(Some(places)) => Ok(Some(Some(Size::new(places as u32)))),
    }
}

/// A change of a quota. Its size alone is read.
pub fn quota_patch_of(body: &Value) -> Result<QuotaPatch, BodyFault>
    ensures { result ≡ quota_patch_of (view body.now) }
{
    let size = new_size(body)?;
    Ok(QuotaPatch { size })
}
