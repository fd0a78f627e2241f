//! Notes: what each is about, where it stands, how grave it is, and its fixed words.
ghost use Rattle.std.specs.Prelude.{◌≡◌};
ghost use Rattle.cw_base.specs.Notes.{grade_of, message_of};

/// Where something stands in the input: the number of a file, in the order in which the files were
/// opened from 0 on, and the number of a line in it, from 1 on.
#[derive(Clone, Copy, Debug, PartialEq, Eq)]
pub struct Place {
    pub file: u32,
    pub line: u32,
}

/// How grave a note is. A note of grade `Error` gives the run status 1.
#[derive(Clone, Copy, Debug, PartialEq, Eq)]
pub enum Grade {
    Harmless,
    Error,
}

/// A note: what it is about and where. `value` is the number of lines that differ in a `LinesDiffer`,
/// the position of the section name in the three notes on names, and 0 in all others.
#[derive(Clone, Copy, Debug, PartialEq, Eq)]
pub struct Note {
    pub kind: NoteKind,
    pub value: u32,
    pub place: Place,
}

/// What a note is about: one variant for each note that the program can print.
#[derive(Clone, Copy, Debug, PartialEq, Eq)]
pub enum NoteKind {
    /// The file of an include line isn't there.
    IncludeMissing,
    /// An include line has no name.
    IncludeUnnamed,
    /// An include line stands in a file of depth 10.
    IncludeTooDeep,
    /// A `@y` or `@z` line stands outside the groups of a change file.
    NoMatchingX,
    /// An `@x` or `@z` line stands before the `@y` line of a group.
    NoMatchingY,
    /// An `@x` or `@y` line stands among the new lines of a group.
    NoMatchingZ,
    /// A `@y` line stands where a group's first old line should be.
    NoOldLine,
    /// The change file ended among the old lines of a group.
    EndedBeforeY,
    /// The change file ended among the new lines of a group.
    EndedBeforeZ,
    /// Old lines of a group differ from the web's; the note's value tells how many.
    LinesDiffer,
    /// The web has no line left for an old line of a group.
    WebEnded,
    /// The web ended before the first old line of a group was met.
    ChangeUnmatched,
    /// An `@` is followed by a byte that makes no code.
    UnknownCode,
    /// A code stands in limbo that has no meaning there.
    CodeInLimbo,
    /// A code of C text stands in TeX text.
    CodeInTexText,
    /// A code that begins a definition or a C part stands in C text.
    CodeInCText,
    /// A single `@` stands in a string.
    AtInString,
    /// A string has no closing quote on its line.
    StringUnended,
    /// A control text has no `@>` on its line.
    ControlTextUnended,
    /// A code stands in a control text.
    CodeInControlText,
    /// A section name has no `@>`.
    NameUnended,
    /// A code stands in a section name.
    CodeInName,
    /// A section name has no text, or is only three dots.
    NameEmpty,
    /// An abbreviated section name begins more than one name.
    AmbiguousPrefix,
    /// A section name begins another one, or another one begins it.
    NameConflict,
    /// A comment has no end.
    CommentUnended,
    /// A single `@` stands in a comment.
    AtInComment,
    /// A `}` in a comment has no `{`.
    ExtraBrace,
    /// A `{` in a comment has no `}`.
    MissingBrace,
    /// Inner C text has no closing bar.
    BarMissing,
    /// Inner C text would stand in more than twenty others.
    TooDeep,
    /// A `@d` isn't followed by a name and proper parameters.
    ImproperMacro,
    /// A `@f` or `@s` isn't followed by two names.
    ImproperFormat,
    /// A section name that no section defines stands alone on a line of TeX text, where no C part follows.
    EqualsMissing,
    /// A section name is only given abbreviated.
    NameIncomplete,
    /// A section name is used or cited and not defined.
    NeverDefined,
    /// A section name is defined and not used.
    NeverUsed,
    /// An output line had no place where it could be cut well.
    LineBroken,
}

impl NoteKind {
    /// How grave the note is: `Harmless` for a name that is never defined or never used, for one behind which a `=`
    /// seems to be missing, and for a line that had to be broken, else `Error`.
    pub fn grade(&self) -> Grade
        ensures { result ≡ grade_of self.now }
    {
        match self {
            NoteKind::EqualsMissing
            | NoteKind::NeverDefined
            | NoteKind::NeverUsed
            | NoteKind::LineBroken => Grade::Harmless,
            _ => Grade::Error,
        }
    }

    /// The fixed words of the note, without its number, name and place.
    pub fn message(&self) -> &'static str
        ensures { result.now ≡ message_of self.now }
    {
        match self {
            NoteKind::IncludeMissing => "Cannot open include file",
            NoteKind::IncludeUnnamed => "Include file name not given",
            NoteKind::IncludeTooDeep => "Too many nested includes",
            NoteKind::NoMatchingX => "Where is the matching @x?",
            NoteKind::NoMatchingY => "Where is the matching @y?",
            NoteKind::NoMatchingZ => "Where is the matching @z?",
            NoteKind::NoOldLine => "No old line in this change",
            NoteKind::EndedBeforeY => "Change file ended before @y",
            NoteKind::EndedBeforeZ => "Change file ended before @z",
            NoteKind::LinesDiffer => "of the preceding lines did not match",
            NoteKind::WebEnded => "Web ended during a change",
            NoteKind::ChangeUnmatched => "Change did not match",
            NoteKind::UnknownCode => "Unknown control code",
            NoteKind::CodeInLimbo => "Double @ should be used in limbo",
            NoteKind::CodeInTexText => "You can't do that in TeX text",
            NoteKind::CodeInCText => "You can't do that in C text",
            NoteKind::AtInString => "Double @ should be used in strings",
            NoteKind::StringUnended => "String didn't end",
            NoteKind::ControlTextUnended => "Control text didn't end",
            NoteKind::CodeInControlText => "Control codes are forbidden in control text",
            NoteKind::NameUnended => "Section name didn't end",
            NoteKind::CodeInName => "Control codes are forbidden in section name",
            NoteKind::NameEmpty => "Section name is empty",
            NoteKind::AmbiguousPrefix => "Ambiguous prefix",
            NoteKind::NameConflict => "Name conflicts with another",
            NoteKind::CommentUnended => "Comment didn't end",
            NoteKind::AtInComment => "Illegal use of @ in comment",
            NoteKind::ExtraBrace => "Extra } in comment",
            NoteKind::MissingBrace => "Missing } in comment",
            NoteKind::BarMissing => "Missing | after C text",
            NoteKind::TooDeep => "C text is nested too deeply",
            NoteKind::ImproperMacro => "Improper macro definition",
            NoteKind::ImproperFormat => "Improper format definition",
            NoteKind::EqualsMissing => "Is an = missing behind this section name?",
            NoteKind::NameIncomplete => "Incomplete name",
            NoteKind::NeverDefined => "Never defined",
            NoteKind::NeverUsed => "Never used",
            NoteKind::LineBroken => "Line had to be broken",
        }
    }
}
