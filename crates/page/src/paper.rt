ghost use Rattle.std.specs.Prelude.{◌≤◌, length};
ghost use Rattle.page.specs.Pages.{line_space};

// A begun page: the first `len` bytes of the buffer are written, with `cases` case lines among them.
// It must be ended or voided; a page let go is refused by the check.
pub struct Page<'a> {
    buffer: &'a mut [u8],
    len: usize,
    cases: usize,
    ghost few: { cases ≤ 99 },
    ghost space: { len ≤ line_space (length buffer.now) },
}

mod writing;
