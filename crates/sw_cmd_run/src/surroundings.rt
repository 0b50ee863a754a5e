// What is around the program.
use sw_cmd_protocol::Output;

/// What a command reads, writes, asks and tells.
#[derive(Drop)]
pub struct Surroundings<S, K, D, T, H> {
    /// Where requests come from.
    pub source: S,
    /// Where replies and CSS go, and who is told of replies.
    pub output: Output<K, T>,
    /// Where folders are.
    pub disk: D,
    /// The functions of the host.
    pub hosts: H,
}
