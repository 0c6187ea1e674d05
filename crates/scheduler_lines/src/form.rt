/// How replies are written.
#[derive(Clone, Copy, Debug, PartialEq, Eq)]
pub enum ReplyForm {
    /// As `maps` prints outputs.
    Plain,
    /// As `maps --json` does: an object a line.
    Json,
}
