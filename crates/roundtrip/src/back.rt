// A record written into a lent slice and read again from there, by the calls of its type: it is measured, `marshal` is lent just as many
// bytes, and what it puts, `unmarshal` finds, with equal fields and shown bytes. Where it may not be written, or there is no room for it,
// that is answered and the slice is as it was.
ghost use Rattle.wire.specs.Answers.{answer};
ghost use Rattle.roundtrip.specs.Roundtrip.{ReadsBack};

use steps::marshal::TpmMarshal;
use wire::lend::lend;
use wire::read::Read;

pub fn back<T: TpmMarshal>(x: T, src: &[u8], out: &mut [u8]) -> Read<T>
    ensures { ReadsBack T.layout (T.parts x) src.now out.old (answer T.parts result) out.new }
{
    let room = lend(x.measure(src), out.len());
    x.marshal(src, &mut out[..room])?;
    T::unmarshal(out, 0)
}
