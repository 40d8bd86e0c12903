//! Traces of capabilities, worked by hand from terminfo(5).

/// The front of `setaf`, whose first part is taken below 8.
pub const CHOICE: &[u8] = b"\x1b[%?%p1%{8}%<%t3%p1%d%e9%;m";

pub const CHOICE_OF_3: &[u8] = b"place\ttoken          \trun    \tstack                  \twrote
    0\t\\E             \tran    \t-                      \t1b
    1\t[              \tran    \t-                      \t5b
    2\t%?             \tran    \t-                      \t-
    4\t%p1            \tran    \t3                      \t-
    7\t%{8}           \tran    \t3,8                    \t-
   11\t%<             \tran    \t1                      \t-
   13\t%t             \tran    \t-                      \t-
   15\t3              \tran    \t-                      \t33
   16\t%p1            \tran    \t3                      \t-
   19\t%d             \tran    \t-                      \t33
   21\t%e             \tran    \t-                      \t-
   23\t9              \tpassed \t-                      \t-
   24\t%;             \tran    \t-                      \t-
   26\tm              \tran    \t-                      \t6d
output: 1b5b33336d
written: 5
ran: 13
passed: 1
height: 2
depth: 2
bound: 15
";

pub const CHOICE_OF_3_ESCAPED: &[u8] =
    b"place\ttoken          \trun    \tstack                  \twrote
    0\t\\E             \tran    \t-                      \t\\E
    1\t[              \tran    \t-                      \t[
    2\t%?             \tran    \t-                      \t-
    4\t%p1            \tran    \t3                      \t-
    7\t%{8}           \tran    \t3,8                    \t-
   11\t%<             \tran    \t1                      \t-
   13\t%t             \tran    \t-                      \t-
   15\t3              \tran    \t-                      \t3
   16\t%p1            \tran    \t3                      \t-
   19\t%d             \tran    \t-                      \t3
   21\t%e             \tran    \t-                      \t-
   23\t9              \tpassed \t-                      \t-
   24\t%;             \tran    \t-                      \t-
   26\tm              \tran    \t-                      \tm
output: \\E[33m
written: 5
ran: 13
passed: 1
height: 2
depth: 2
bound: 15
";

/// A conditional in the part that is passed over.
pub const NESTED: &[u8] = b"%?%p1%tA%?%p1%tX%eY%;%eB%;";

pub const NESTED_OF_0: &[u8] = b"place\ttoken          \trun    \tstack                  \twrote
    0\t%?             \tran    \t-                      \t-
    2\t%p1            \tran    \t0                      \t-
    5\t%t             \tran    \t-                      \t-
    7\tA              \tpassed \t-                      \t-
    8\t%?             \tpassed \t-                      \t-
   10\t%p1            \tpassed \t-                      \t-
   13\t%t             \tpassed \t-                      \t-
   15\tX              \tpassed \t-                      \t-
   16\t%e             \tpassed \t-                      \t-
   18\tY              \tpassed \t-                      \t-
   19\t%;             \tpassed \t-                      \t-
   21\t%e             \tran    \t-                      \t-
   23\tB              \tran    \t-                      \t42
   24\t%;             \tran    \t-                      \t-
output: 42
written: 1
ran: 6
passed: 8
height: 1
depth: 1
bound: 2
";

/// A parameter that is counted from 1, a variable that is set and one that is not.
pub const VARIABLES: &[u8] = b"%i%p1%PA%gA%gB%+%d";

pub const VARIABLES_OF_4: &[u8] = b"place\ttoken          \trun    \tstack                  \twrote
    0\t%i             \tran    \t-                      \t-
    2\t%p1            \tran    \t5                      \t-
    5\t%PA            \tran    \t-                      \t-
    8\t%gA            \tran    \t5                      \t-
   11\t%gB            \tran    \t5,0                    \t-
   14\t%+             \tran    \t5                      \t-
   16\t%d             \tran    \t-                      \t35
output: 35
written: 1
ran: 7
passed: 0
height: 2
depth: 2
bound: 11
";

/// A text of 17 bytes, which is cut after 16, and a number below 0.
pub const CUT_TEXT: &[u8] = b"place\ttoken          \trun    \tstack                  \twrote
    0\t%p1            \tran    \ts:30313233343536373839616263646566,..17\t-
    3\t%p2            \tran    \ts:30313233343536373839616263646566,..17,-5\t-
    6\t%d             \tran    \ts:30313233343536373839616263646566,..17\t2d35
    8\t%s             \tran    \t-                      \t3031323334353637383961626364656667
output: 2d353031323334353637383961626364656667
written: 19
ran: 4
passed: 0
height: 2
depth: 2
bound: 28
";

/// Bytes that the notation writes in another way.
pub const MARKS: &[u8] = b"place\ttoken          \trun    \tstack                  \twrote
    0\t\\055           \tran    \t-                      \t\\055
    1\t\\,             \tran    \t-                      \t\\,
    2\t\\s             \tran    \t-                      \t\\s
    3\t^I             \tran    \t-                      \t^I
    4\t\\200           \tran    \t-                      \t\\200
output: -\\, ^I\\200
written: 5
ran: 5
passed: 0
height: 0
depth: 0
bound: 5
";

pub const NOTHING: &[u8] = b"place\ttoken          \trun    \tstack                  \twrote
output: -
written: 0
ran: 0
passed: 0
height: 0
depth: 0
bound: 0
";

/// A text of 17 bytes and a negative number on the stack, so that the columns are full.
pub const TEXT_AND_NUMBER: &[u8] = b"place\ttoken          \trun    \tstack                  \twrote
    0\t%p1            \tran    \ts:0123456789abcdef,..17\t-
    3\t%p2            \tran    \ts:0123456789abcdef,..17,-5\t-
    6\t%d             \tran    \ts:0123456789abcdef,..17\t-5
    8\t%s             \tran    \t-                      \t0123456789abcdef\\E
output: -50123456789abcdef\\E
written: 19
ran: 4
passed: 0
height: 2
depth: 2
bound: 28
";

pub const COLUMN: &[u8] = b"\x1b[%p1%dG";

pub const COLUMN_OF_7: &[u8] = b"place\ttoken          \trun    \tstack                  \twrote
    0\t\\E             \tran    \t-                      \t1b
    1\t[              \tran    \t-                      \t5b
    2\t%p1            \tran    \t7                      \t-
    5\t%d             \tran    \t-                      \t37
    7\tG              \tran    \t-                      \t47
output: 1b5b3747
written: 4
ran: 5
passed: 0
height: 1
depth: 1
bound: 14
";
