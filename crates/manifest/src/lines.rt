// The lines of a text, each with the offset of its first byte.
ghost use Rattle.std.specs.Prelude.{◌+◌, ◌≤◌};
ghost use Rattle.text.specs.Left.{left};
ghost use Rattle.manifest.specs.Lines.{total};

use text::pieces::Pieces;

// A cursor over the lines that are left, the first of them at that offset. Offsets have the 32 bits that a refusal gives callers, so the
// text may not be longer than one that is read: three functions ask it, on the way from where it is tested.
#[derive(Clone, Copy)]
pub struct Lines<'a> {
    pieces: Pieces<'a>,
    offset: u32,
    ghost fits: { offset + total (left pieces) ≤ 65537 },
}

impl<'a> Lines<'a> {
    ghost use Rattle.std.specs.Prelude.{◌≡◌, length};
    ghost use Rattle.text.specs.Splitting.{parts};
    ghost use Rattle.manifest.specs.Lines.{with_offsets};
    ghost use Rattle.manifest.specs.LinesLeft.{lines_left};

    pub fn of(text: &'a [u8]) -> Lines<'a>
        requires { length text.now ≤ 65536 }
        ensures { lines_left result ≡ with_offsets 0 (parts 10 text.now) }
    {
        Lines {
            pieces: Pieces::plain(text, b'\n'),
            offset: 0,
        }
    }
}

impl<'a> Iterator for Lines<'a> {
    type Item = (u32, &'a [u8]);

    ghost use Rattle.std.specs.Iterator.{YieldsFirstBy, item_count};
    ghost use Rattle.manifest.specs.LinesLeft.{line_said, lines_left};

    ghost next_gives = { YieldsFirstBy line_said lines_left };

    ghost remaining = { item_count lines_left };

    fn next(&mut self) -> Option<(u32, &'a [u8])> {
        let line = self.pieces.next()?;
        let offset = self.offset;
        self.offset += line.len() as u32 + 1;
        Some((offset, line))
    }
}
