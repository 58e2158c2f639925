// A byte stream, for C, in memory that the caller lends: the stream's own, and its assembly's.
ghost use Rattle.std.specs.Prelude.{◌≡◌, length};
ghost use Rattle.wire.specs.Output.{over};
ghost use Rattle.lent_stream.specs.LentStream.{reset_in, feed_in};
ghost use Rattle.c_structs.specs.Answers.{refusal_of};
ghost use Rattle.c_structs.specs.Streams.{stream_info};

use c_structs::RefusalInfo;
use c_structs::streams::{StreamInfo, stream_info};
use lent_stream::{feed, reset};

pub fn cvr_stream_reset(stream: &mut [u8], assembly: &mut [u8]) -> RefusalInfo
    ensures value { result ≡ refusal_of (reset_in stream.old assembly.old).verdict }
    ensures stream_after { stream.new ≡ (reset_in stream.old assembly.old).memory }
    ensures assembly_after { assembly.new ≡ (reset_in stream.old assembly.old).assembly }
{
    RefusalInfo::from(reset(stream, assembly))
}

pub fn cvr_stream_feed(
    stream: &mut [u8],
    assembly: &mut [u8],
    chunk: &[u8],
    out: &mut [u8],
) -> StreamInfo
    ensures value { result ≡ stream_info (feed_in stream.old assembly.old chunk.now (length out.old)).fed.said (feed_in stream.old assembly.old chunk.now (length out.old)).fed.taken }
    ensures stream_after { stream.new ≡ (feed_in stream.old assembly.old chunk.now (length out.old)).memory }
    ensures assembly_after { assembly.new ≡ (feed_in stream.old assembly.old chunk.now (length out.old)).assembly }
    ensures out_after { out.new ≡ over (feed_in stream.old assembly.old chunk.now (length out.old)).information out.old }
{
    let fed = feed(stream, assembly, chunk, out);
    stream_info(fed.said, fed.taken)
}
