ghost use Rattle.mr_file.specs.Laws.{OneFault, NoFault, OneFile, OneRefusal, OnePartRefusal, NoRefusal, FileLength, LinesAreTheFile, EachTextStandsOrIsAtFault};

/// A text has at most one first fault.
pub fn one_fault()
    ensures { OneFault }
{}

/// A text that stands for numbers and sets has no fault.
pub fn no_fault()
    ensures { NoFault }
{}

/// Numbers and sets within the limits have a file of their own.
pub fn one_file()
    ensures { OneFile }
{}

/// A text is refused for at most one cause.
pub fn one_refusal()
    ensures { OneRefusal }
{}

/// A file that begins a text is refused for at most one cause.
pub fn one_part_refusal()
    ensures { OnePartRefusal }
{}

/// The file of a matroid is not refused.
pub fn no_refusal()
    ensures { NoRefusal }
{}

/// The file of numbers and sets within the limits has at most `FILE_BYTES` bytes.
pub fn file_length()
    ensures { FileLength }
{}

/// A text is the file of a matroid exactly where its lines stand for it.
pub fn lines_are_the_file()
    ensures { LinesAreTheFile }
{}

/// A text stands for numbers and sets, or has a fault.
pub fn each_text_stands_or_is_at_fault()
    ensures { EachTextStandsOrIsAtFault }
{}
