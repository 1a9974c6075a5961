//! Items that have bytes, and the bytes of lists of them. A buffer has the room before they are put, so that no put fails.

ghost use Rattle.std.specs.Prelude.{◌+◌, ◌*◌, ◌<◌, ◌≤◌, ◌^◌, ◌≡◌, ℕ, List, length, All, IfSome};
ghost use Rattle.std.specs.Int.{w16, w32};
ghost use Rattle.std.specs.List.{flat_map};
ghost use Rattle.site_encoding.specs.Buffers.{HasRoom, IsPut};
ghost use Rattle.site_encoding.specs.Encoding.{list_bytes, option_bytes, short_list_bytes, text_bytes};

use farm_site::Format;

/// An item, and its bytes in each format.
pub trait Encoded {
    ghost use Rattle.farm_site.specs.declared.formats.Format.{Format};

    ghost bytes: { Format → Self → List ℕ };

    // What keeps its counts and numbers within their bytes.
    ghost fits: { Self → Type 0 } = { λ _. Unit {0} };

    // What its numbers have by their types.
    ghost typed: { Self → Type 0 } = { λ _. Unit {0} };

    /// Puts its bytes in a format.
    fn put(&self, format: Format, out: &mut Vec<u8>)
        requires fits { fits self.now }
        requires room { HasRoom out.old (bytes format self.now) }
        ensures put { IsPut out.old out.new (bytes format self.now) }
        ensures typed { typed self.now };
}

/// An item whose bytes are counted before they are put.
pub trait Measured: Encoded {
    ghost most: { ℕ };

    /// How many bytes it has in a format.
    fn len(&self, format: Format) -> usize
        requires fits { Self.fits self.now }
        ensures len { result ≡ length (Self.bytes format self.now) }
        ensures short { result ≤ most };
}

/// Puts bytes.
pub(crate) fn put(out: &mut Vec<u8>, bytes: &[u8])
    requires room { HasRoom out.old bytes.now }
    ensures put { IsPut out.old out.new bytes.now }
{
    out.extend_from_slice(bytes).unwrap();
}

/// Puts a text after its length.
pub(crate) fn put_text(out: &mut Vec<u8>, text: &[u8])
    requires short { length text.now < 256 }
    requires room { HasRoom out.old (text_bytes text.now) }
    ensures put { IsPut out.old out.new (text_bytes text.now) }
{
    put(out, &[text.len() as u8]);
    put(out, text);
}

/// Puts 0 for nothing, or 1 and the bytes of the item that is there.
pub(crate) fn put_option<T: Encoded>(format: Format, out: &mut Vec<u8>, option: &Option<T>)
    requires fits { IfSome option.now T.fits }
    requires room { HasRoom out.old (option_bytes (T.bytes format) option.now) }
    ensures put { IsPut out.old out.new (option_bytes (T.bytes format) option.now) }
    ensures typed { IfSome option.now T.typed }
{
    match option {
        None => put(out, &[0]),
        Some(item) => {
            put(out, &[1]);
            item.put(format, out);
        }
    }
}

/// How many bytes an item that may be missing has.
pub(crate) fn len_of_option<T: Measured>(format: Format, option: &Option<T>) -> usize
    requires fits { IfSome option.now T.fits }
    requires few { T.most < 2 ^ 32 }
    ensures len { result ≡ length (option_bytes (T.bytes format) option.now) }
    ensures short { result ≤ 1 + T.most }
{
    match option {
        None => 1,
        Some(item) => 1 + item.len(format),
    }
}

/// Puts the bytes of items, one after another.
pub(crate) fn put_each<T: Encoded>(format: Format, out: &mut Vec<u8>, items: &[T])
    requires fits { All T.fits items.now }
    requires room { HasRoom out.old (flat_map (T.bytes format) items.now) }
    ensures put { IsPut out.old out.new (flat_map (T.bytes format) items.now) }
    ensures typed { All T.typed items.now }
{
    for item in items {
        item.put(format, out);
    }
}

/// How many bytes items have.
pub(crate) fn len_of_each<T: Measured>(format: Format, items: &[T]) -> usize
    requires fits { All T.fits items.now }
    requires few { length items.now * T.most < 2 ^ 32 }
    ensures len { result ≡ length (flat_map (T.bytes format) items.now) }
    ensures short { result ≤ length items.now * T.most }
{
    let mut total = 0;
    for item in items {
        total += item.len(format);
    }
    total
}

/// Puts items after their count of one byte.
pub(crate) fn put_short_list<T: Encoded>(format: Format, out: &mut Vec<u8>, items: &[T])
    requires fits { All T.fits items.now }
    requires few { length items.now < 256 }
    requires room { HasRoom out.old (short_list_bytes (T.bytes format) items.now) }
    ensures put { IsPut out.old out.new (short_list_bytes (T.bytes format) items.now) }
    ensures typed { All T.typed items.now }
{
    put(out, &[items.len() as u8]);
    put_each(format, out, items);
}

/// Puts items after their count of two bytes.
pub(crate) fn put_list<T: Encoded>(format: Format, out: &mut Vec<u8>, items: &[T])
    requires fits { All T.fits items.now }
    requires few { length items.now < 65536 }
    requires room { HasRoom out.old (list_bytes w16 (T.bytes format) items.now) }
    ensures put { IsPut out.old out.new (list_bytes w16 (T.bytes format) items.now) }
    ensures typed { All T.typed items.now }
{
    put(out, &(items.len() as u16).to_be_bytes());
    put_each(format, out, items);
}

/// Puts items after their count of four bytes.
pub(crate) fn put_long_list<T: Encoded>(format: Format, out: &mut Vec<u8>, items: &[T])
    requires fits { All T.fits items.now }
    requires few { length items.now < 4294967296 }
    requires room { HasRoom out.old (list_bytes w32 (T.bytes format) items.now) }
    ensures put { IsPut out.old out.new (list_bytes w32 (T.bytes format) items.now) }
    ensures typed { All T.typed items.now }
{
    put(out, &(items.len() as u32).to_be_bytes());
    put_each(format, out, items);
}
