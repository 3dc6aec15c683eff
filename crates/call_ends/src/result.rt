// What a call gives besides its number, in a buffer of 32 bytes.
ghost use Rattle.std.specs.Prelude.{◌≡◌, ◌++◌, replicate};
ghost use Rattle.image.specs.Bytes.{bytes_of};
ghost use Rattle.calls.specs.Result.{written, event_result, run_result, select_result};

// Three numbers of eight bytes, and zeros. A buffer of another length is left as it is.
fn write(res: &mut [u8], first: u64, second: u64, third: u64)
    ensures { res.new ≡ written (bytes_of 8 first ++ (bytes_of 8 second ++ (bytes_of 8 third ++ replicate 8 0))) res.old }
{
    if res.len() == 32 {
        image::layout::put_numbers(res, first, second, third, 0);
    }
}

// Answer and flag of an event, a byte each.
pub fn write_event(res: &mut [u8], answer: u8, flag: bool)
    ensures { res.new ≡ event_result answer flag res.old }
{
    let bytes = u64::from_be_bytes([answer, u8::from(flag), 0, 0, 0, 0, 0, 0]);
    write(res, bytes, 0, 0);
}

// Count, offset and flag offset of a run.
pub fn write_run(res: &mut [u8], count: usize, offset: usize, flag: usize)
    ensures { res.new ≡ run_result count offset flag res.old }
{
    write(res, count as u64, offset as u64, flag as u64);
}

// First and count of a selection as bytes.
pub fn write_select(res: &mut [u8], first: usize, count: usize)
    ensures { res.new ≡ select_result first count res.old }
{
    write(res, first as u64, count as u64, 0);
}
