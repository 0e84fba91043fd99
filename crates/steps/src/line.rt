// Lines of a listing, put by a walk one behind the other where they fit, and counted in any case. A walk that is for something else
// passes them.
ghost use Rattle.std.specs.Prelude.{◌≡◌, ◌+◌, ◌≤◌, length};
ghost use Rattle.wire.specs.Answers.{width_of, start_of, len_of};
ghost use Rattle.wire.specs.Lines.{line, span_line};
ghost use Rattle.text.specs.Text.{say_word};
ghost use Rattle.steps.specs.Walks.{here, put_line, to_place};

use crate::walk::{FAR, LINES, Walk, lining};
use text::line::{Word, fit_bytes_line, fit_number_line};
use wire::span::Span;
use wire::width::Width;

impl Walk {
    // The line of a number that stands at `place`. Each word has a call of its own: with a single one the whole line would be compiled into
    // every leaf, and a leaf that writes would be slower.
    pub fn number_line(self, place: usize, word: Word, w: Width, n: u64, out: &mut [u8]) -> Walk
        ensures { here result out.new ≡ put_line (line place (width_of w) (say_word word n)) (here self out.old) }
    {
        if self.mode == LINES {
            let at = self.value as usize;
            if at <= FAR {
                match word {
                    Word::Code => {
                        let k = fit_number_line(place, w.bytes(), Word::Code, n, out, at);
                        return lining(self.at, at + k);
                    }
                    Word::Number => {
                        let k = fit_number_line(place, w.bytes(), Word::Number, n, out, at);
                        return lining(self.at, at + k);
                    }
                }
            }
        }
        self
    }

    // The line of the bytes of a span of src that stand at `place`.
    pub fn bytes_line(self, place: usize, span: Span, src: &[u8], out: &mut [u8]) -> Walk
        requires { (len_of span ≤ 0x10001) × (start_of span + len_of span ≤ length src.now) }
        ensures { here result out.new ≡ put_line (span_line place (start_of span) (len_of span) src.now) (here self out.old) }
    {
        if self.mode == LINES {
            let at = self.value as usize;
            if at <= FAR {
                let k = fit_bytes_line(place, span.part(src), out, at);
                return lining(self.at, at + k);
            }
        }
        self
    }

    // On to the place behind the field.
    pub fn to_place(self, end: usize) -> Walk
        ensures { result ≡ to_place end self }
    {
        if self.mode == LINES {
            return lining(end, self.value as usize);
        }
        self
    }
}
