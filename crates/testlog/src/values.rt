// The values of a test, out of the groups of a record.
ghost use Rattle.std.specs.Prelude.{◌≡◌, ◌*◌, ◌≤◌, length, take};
ghost use Rattle.inline_list.specs.Listed.{listed};
ghost use Rattle.test_format.specs.Packing.{unpack};
ghost use Rattle.test_format.specs.Records.{map_of, filled};

use crate::bits::bit_at;
use inline_list::InlineList;

// The first bits of a group, so many.
pub(crate) fn applied_inputs(group: &[u8], count: usize) -> InlineList<bool, 64>
    requires few { count ≤ 64 }
    requires held { count ≤ 8 * length group.now }
    ensures { listed result ≡ take count (unpack group.now) }
{
    // Kept: tried `array::from_fn`; the proof did not close, as what its calls gave has to be followed from place to place.
    let mut inputs = InlineList::none(false);
    for i in 0..count {
        let _ = inputs.push(bit_at(group, i));
    }
    inputs
}

// The outputs, so many: one that the map marks has the next of the values.
pub(crate) fn measured_outputs(
    map: &[u8],
    values: &[u8],
    count: usize,
) -> InlineList<Option<bool>, 64>
    requires few { count ≤ 64 }
    requires held { count ≤ 8 * length map.now }
    ensures { listed result ≡ filled (map_of count map.now) (unpack values.now) }
{
    let mut outputs = InlineList::none(None);
    // Kept: `next` counted by hand, since an iterator over the values would be stepped by hand too, at the outputs that are marked.
    let mut next = 0;
    for i in 0..count {
        if bit_at(map, i) {
            let _ = outputs.push(Some(bit_at(values, next)));
            next += 1;
        } else {
            let _ = outputs.push(None);
        }
    }
    outputs
}
