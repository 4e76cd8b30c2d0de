// Writing fields: the shortest varints.
ghost use Rattle.buffer.specs.Put.{Put};
ghost use Rattle.protobuf.specs.Write.{if_any, number_field, bytes_head, bytes_field};
ghost use Rattle.protobuf.specs.Given.{if_given};

// Appends a field that holds a number.
pub fn put_number(out: &mut [u8], at: usize, number: u32, value: u64) -> usize
    ensures { Put out.old at (number_field number value) out.new result }
{
    varint::put_two(out, at, number as u64 * 8, value)
}

// Appends a field that holds a number, where there is one.
pub fn put_given(out: &mut [u8], at: usize, number: u32, value: Option<u32>) -> usize
    ensures { Put out.old at (if_any (number_field number) value) out.new result }
{
    let Some(v) = value else {
        return buffer::put(out, at, b"");
    };
    put_number(out, at, number, v as u64)
}

// Appends the tag and the length of a field that holds `len` bytes.
pub fn put_head(out: &mut [u8], at: usize, number: u32, len: usize) -> usize
    ensures { Put out.old at (bytes_head number len) out.new result }
{
    varint::put_two(out, at, number as u64 * 8 + 2, len as u64)
}

// Appends a field that holds bytes.
pub fn put_bytes(out: &mut [u8], at: usize, number: u32, bytes: &[u8]) -> usize
    ensures { Put out.old at (bytes_field number bytes.now) out.new result }
{
    varint::put_delimited(out, at, number as u64 * 8 + 2, bytes)
}

// Appends a field that holds bytes, where there are any.
pub fn put_bytes_if(out: &mut [u8], at: usize, number: u32, given: bool, bytes: &[u8]) -> usize
    ensures { Put out.old at (if_any (bytes_field number) (if_given given bytes.now)) out.new result }
{
    if given {
        return put_bytes(out, at, number, bytes);
    }
    buffer::put(out, at, b"")
}
