// Bits in groups of bytes, lowest first.
ghost use Rattle.std.specs.Prelude.{◌≡◌, ◌≤◌, false, length, slice_index_or};
ghost use Rattle.test_format.specs.Packing.{unpack, bytes_for};
ghost use Rattle.test_format.specs.Records.{ones, map_of, clear};

// How many whole bytes hold so many bits.
pub(crate) fn bytes_for(bits: usize) -> usize
    ensures { result ≡ bytes_for bits }
{
    bits.div_ceil(8)
}

// The bit at a place, or 0 where the bytes end before it.
pub(crate) fn bit_at(bytes: &[u8], i: usize) -> bool
    ensures { result ≡ slice_index_or (unpack bytes.now) i false }
{
    bytes
        .get(i / 8)
        .is_some_and(|byte| (*byte >> (i % 8)) & 1 == 1)
}

// How many of the outputs a map marks.
pub(crate) fn marked(map: &[u8], outputs: usize) -> usize
    ensures value { result ≡ ones (map_of outputs map.now) }
    ensures bound { result ≤ outputs }
{
    (0..outputs).filter(|i| bit_at(map, *i)).count()
}

// Whether each bit of a group from this place on is 0.
pub(crate) fn is_clear(group: &[u8], from: usize) -> bool
    requires { length group.now ≤ 8 }
    ensures { result ≡ clear from group.now }
{
    (from..8 * group.len()).all(|i| !bit_at(group, i))
}
