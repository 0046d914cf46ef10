ghost use Rattle.mr_nogood.specs.Laws.{RowsThatFollowExclude, MoreRowsKeepWhatFollows, CitedRowsHaveSmallerRanks, RowsThatFollowFromEachOtherExclude, RowsHaveWordsOfTheirOwn, RowsComeBackFromTheirWords};

/// A row that follows from rows without completions has none.
pub fn rows_that_follow_exclude()
    ensures { RowsThatFollowExclude }
{}

/// Where more rows are given, no less follows.
pub fn more_rows_keep_what_follows()
    ensures { MoreRowsKeepWhatFollows }
{}

/// A row that follows rests on given rows of smaller rank alone.
pub fn cited_rows_have_smaller_ranks()
    ensures { CitedRowsHaveSmallerRanks }
{}

/// Rows each of which follows from the others have no completions.
pub fn rows_that_follow_from_each_other_exclude()
    ensures { RowsThatFollowFromEachOtherExclude }
{}

/// Rows have words of their own.
pub fn rows_have_words_of_their_own()
    ensures { RowsHaveWordsOfTheirOwn }
{}

/// A row comes back from its words.
pub fn rows_come_back_from_their_words()
    ensures { RowsComeBackFromTheirWords }
{}
