//! The listings that tests run.

/// Two processors, which share nothing: the first prints a text and a number.
pub const PRINTS: &str = "zplnode 1\ngrid 2\nscalars 1\nslots\ncells 0\ntext 6869\nexpr n20\n\
    expr s0 n1 +\ncode\nset 0 0 1\nprint 0\nnumber 1\nend\n";

/// Three processors, each with one index of a region, print the sum of these.
pub const SUMS: &str = "zplnode 1\ngrid 3\nscalars 1\nslots 1\ncells 0\narray 1..3:0,0\nexpr i1\n\
    expr s0\ngroup\nacc 0 sum 0 - 5\ncode\nfix 0 1..3:1:1\nloop 0 0\nfold 0 sum\nnumber 1\nend\n";

/// Processor 1 waits for an answer that never comes.
pub const WAITS: &str = "zplnode 1\ngrid 2\nscalars 1\nslots 1\ncells 0\nexpr n1\nexpr s0\ngroup\n\
    acc 0 sum 0 - 1\ncode\nfix 0 1..1:1:1\nloop 0 0\nunless 1 4 1\nfold 0 sum\nend\n";

/// Both processors send twice before they take.
pub const EXCHANGES: &str = "zplnode 1\ngrid 2\nscalars 0\nslots 1\ncells 0\narray 1..4:1,1\n\
    exchange\nitem 0 0 1\nitem 0 0 -1\nexchange\nitem 0 0 1\nitem 0 0 -1\ncode\nfix 0 2..3:1:1\n\
    start 0\nstart 1\nfinish 0\nfinish 1\nend\n";

/// Three times over one exchange with a region for which processor 0 needs a place of processor 1,
/// and with one for which it needs none.
pub const VISITS: &str = "zplnode 1\ngrid 2\nscalars 1\nslots 1\ncells 0\narray 1..4:1,1\n\
    expr s0 n1 +\nexpr s0 n3 <\nexchange\nitem 0 0 1\ncode\nfix 0 2..3:1:1\nstart 0\nfinish 0\n\
    fix 0 3..3:1:1\nstart 0\nfinish 0\nset 0 0 1\nunless 1 9 1\njump 0\nend\n";

/// A loop reads beside the array's places.
pub const READS_OUTSIDE: &str = "zplnode 1\ngrid 1\nscalars 0\nslots 1\ncells 0\n\
    array 1..2:0,0\nexpr a0@1\ngroup\nput 0 0 - 1\ncode\nfix 0 1..2:1:1\nloop 0 0\nend\n";

/// Processors come to different rows, each of which sends one word.
pub const OTHER_ROW: &str = "zplnode 1\ngrid 2\nscalars 1\nslots 1\ncells 0\nexpr n1\nexpr s0\n\
    group\nacc 0 sum 0 - 1\ncode\nfix 0 1..1:1:1\nloop 0 0\nunless 1 5 1\nfold 0 sum\nend\n\
    fold 0 max\nend\n";

/// They come to one row with different regions.
pub const OTHER_REGION: &str = "zplnode 1\ngrid 2\nscalars 1\nslots 1 1\ncells 0\n\
    array 1..4:0,0\nexpr n1\nexpr n3\nexpr n3 s0 +\ngroup\nacc 0 sum 0 - 1\ncode\nfix 0 4..4:1:1\n\
    loop 0 0\ndims 1 1..2 1\ngather number 0 1\nend\n";

/// A division by zero at line 7.
pub const DIVIDES: &str = "zplnode 1\ngrid 2\nscalars 1\nslots\ncells 0\nexpr n1 s0 /\ncode\n\
    set 0 0 7\nend\n";
