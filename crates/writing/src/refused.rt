// Writing a refusal's line into a lent slice. It is measured first: nothing is written where the slice is short.
ghost use Rattle.std.specs.Prelude.{◌≡◌, ◌≤◌, length};
ghost use Rattle.text.specs.Texts.{refusal_text};
ghost use Rattle.output.specs.Replies.{write_reply, slice_after};
ghost use Rattle.output.specs.Sinks.{Puts};
ghost use Rattle.writing.specs.Rooms.{refusal_room};

use database::Refusal;
use output::{Lent, Measure, Sink, put_two};
use refusals::{refusal_number, refusal_place};

fn put_refusal<S: Sink>(r: Refusal, sink: &mut S)
    ensures { Puts S.put (refusal_text r) sink.old sink.new
        × (length (refusal_text r) ≤ refusal_room) }
{
    let number = refusal_number(r) as usize;
    let place = refusal_place(r);
    put_two(b"refused=", number, place, sink)
}

// "A refusal prints `refused=number,place`"
pub fn write_refusal(r: Refusal, out: &mut [u8]) -> Result<usize, Refusal>
    ensures { (result ≡ write_reply (refusal_text r) out.old)
        × (out.new ≡ slice_after (refusal_text r) out.old)
        × (length (refusal_text r) ≤ refusal_room) }
{
    let mut measure = Measure::of(out);
    put_refusal(r, &mut measure);
    if out.len() < measure.size {
        return Err(Refusal::ShortSlice);
    }
    put_refusal(r, &mut Lent { out, at: 0 });
    Ok(measure.size)
}
