// A record read by its type's own call, with what the answer means in the grammar's words: as a prefix, by `unmarshal`, and with nothing
// behind it, by `whole`.
ghost use Rattle.wire.specs.Answers.{answer};
ghost use Rattle.records.specs.Reads.{Reads, ReadsWhole};

use wire::read::Read;
use wire::unmarshal::TpmUnmarshal;

pub fn record_read<T: TpmUnmarshal>(s: &[u8], at: usize) -> Read<T>
    ensures { Reads T.layout s.now at (answer T.parts result) }
{
    T::unmarshal(s, at)
}

pub fn record_read_whole<T: TpmUnmarshal>(s: &[u8], at: usize) -> Read<T>
    ensures { ReadsWhole T.layout s.now at (answer T.parts result) }
{
    T::whole(s, at)
}
