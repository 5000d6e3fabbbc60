//! Key IDs in ascending order.

ghost use Rattle.std.specs.Prelude.{◌≡◌, OnOk, OnErr};
ghost use Rattle.std.specs.List.{slice_get};
ghost use Rattle.office.specs.Machine.{put_text};
ghost use Rattle.memory_store.specs.KeyIds.{comes_after, is_at, place_among};

use text::{NoMemory, Text};

fn comes_after(key_id: &[u8], other: &Text) -> bool
    ensures { result ≡ comes_after key_id.now other.now }
{
    key_id.cmp(other.as_slice()).is_gt()
}

// How many come before this one.
fn place_among(key_ids: &[Text], key_id: &[u8]) -> usize
    ensures { result ≡ place_among key_ids.now key_id.now }
{
    key_ids
        .iter()
        .take_while(|other| comes_after(key_id, other))
        .count()
}

fn is_at(key_ids: &[Text], place: usize, key_id: &[u8]) -> bool
    ensures { result ≡ is_at (slice_get key_ids.now place) key_id.now }
{
    match key_ids.get(place) {
        Some(other) => other.is(key_id),
        None => false,
    }
}

/// Puts a key ID in its place, unless it is there already.
pub(crate) fn put_key_id(key_ids: &mut Vec<Text>, key_id: Text) -> Result<(), NoMemory>
    ensures ok { OnOk result (key_ids.new.items ≡ put_text key_id key_ids.old.items) }
    ensures err { OnErr result (key_ids.new.items ≡ key_ids.old.items) }
{
    let place = place_among(key_ids, key_id.as_slice());
    if !is_at(key_ids, place, key_id.as_slice()) {
        key_ids.insert(place, key_id)?;
    }
    Ok(())
}
