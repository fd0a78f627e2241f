//! The flags of a run, and how they stand on a command line without option words.
ghost use Rattle.std.specs.Prelude.{◌≡◌};
ghost use Rattle.cw_base.specs.Flags.{start_flags};

/// The flags of a run, each set by a letter of an option word: `-` turns it off, `+` turns it on.
#[derive(Clone, Copy, Debug, PartialEq, Eq)]
pub struct Flags {
    /// `b`: print the banner. On at the start.
    pub banner: bool,
    /// `p`: print progress lines. On at the start.
    pub progress: bool,
    /// `h`: print the happy message. On at the start.
    pub happy: bool,
    /// `f`: statements are separated by forced breaks. On at the start.
    pub force: bool,
    /// `e`: wrap inner C text in `\PB{..}`. On at the start.
    pub wrap: bool,
    /// `i`: indent parameter declarations of functions. On at the start.
    pub indent: bool,
    /// `o`: separate declarations from statements by a big break. On at the start.
    pub separate: bool,
    /// `x`: write the index and the list of section names. On at the start.
    pub index: bool,
    /// `s`: print statistics. Off at the start.
    pub stats: bool,
    /// `k`: draft the outputs and compare them with the old files. Off at the start.
    pub keep: bool,
    /// `r`: lay pages out as the original does. Off at the start.
    pub ranged: bool,
}

impl Flags {
    /// The flags of a command line without option words: all on but the statistics, the drafts and the pages laid
    /// out as the original lays them out.
    pub fn start() -> Flags
        ensures { result ≡ start_flags }
    {
        Flags {
            banner: true,
            progress: true,
            happy: true,
            force: true,
            wrap: true,
            indent: true,
            separate: true,
            index: true,
            stats: false,
            keep: false,
            ranged: false,
        }
    }
}
