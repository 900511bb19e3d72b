//! What commands store and put of the programs here: a measurement, a trace, and texts. They are written by hand from
//! their layouts; the lines of the drill are those of `checks/files/drill`, which makes, runs and samples the guest in
//! plain Python.

/// The measurement of the adding program with a period of 5: each of four samples has a path of its own, of one frame.
pub const FOUR_PATHS: &[u8] = b"\
HPCRUNM1\xa8\0\0\0\0\0\x01\0\x05\0\0\0\x01\0\0\0\x04\0\0\0\
\x01\0\0\0\0\0\0\0\x01\0\0\0\x10\0\x01\0\
\x01\0\0\0\0\0\0\0\x01\0\0\0\x24\0\x01\0\
\x01\0\0\0\0\0\0\0\x01\0\0\0\x38\0\x01\0\
\x01\0\0\0\0\0\0\0\x01\0\0\0\x4c\0\x01\0";

/// The report on this run: its lines and its table.
pub const FOUR_SAMPLES: &str = "\
harts 1 period 5 samples 4 total 20
hart 0 retired 20 samples 4 end exit 19
       inclusive      %            frame  scope
              20  100.0                0  <thread root>
              20  100.0               20    <unknown procedure>
               5   25.0                5      0x00010010
               5   25.0                5      0x00010024
               5   25.0                5      0x00010038
               5   25.0                5      0x0001004c
";

/// The lines on this run.
pub const FOUR_LINES: &str = "\
harts 1 period 5 samples 4 total 20
hart 0 retired 20 samples 4 end exit 19
";

/// The table of this run.
pub const FOUR_TABLE: &str = "       inclusive      %            frame  scope
              20  100.0                0  <thread root>
              20  100.0               20    <unknown procedure>
               5   25.0                5      0x00010010
               5   25.0                5      0x00010024
               5   25.0                5      0x00010038
               5   25.0                5      0x0001004c
";

/// The trace of two harts that retired 7 and 3 instructions, the first with a sample after the fifth.
pub const ONE_SAMPLE: &[u8] = b"\
HPCTRAC1\xa8\0\0\0\0\0\x01\0\x05\0\0\0\x02\0\0\0\
\x07\0\0\0\0\0\0\0\x01\0\0\0\0\0\0\0\x01\0\0\0\x10\0\x01\0\x01\0\0\0\0\0\0\0\
\x03\0\0\0\0\0\0\0\0\0\0\0\0\0\0\0";

/// The lines on its run.
pub const TRACE_LINES: &str = "\
harts 2 period 5 samples 1 total 5
hart 0 retired 7 samples 1 end stopped
hart 1 retired 3 samples 0 end stopped
";

/// Its timeline.
pub const TIMELINE: &str = "\
timeline harts 2 period 5 depth 1 cells 7 span 7
hart 0 ....AAA
hart 1 ...----
A <unknown procedure>
";

/// The report on a recursion with a period of 31: one path of seven frames.
pub const SEVEN_FRAMES: &str = "\
harts 1 period 31 samples 1 total 31
hart 0 retired 49 samples 1 end exit 0
       inclusive      %            frame  scope
              31  100.0                0  <thread root>
              31  100.0                0    _start
              31  100.0                0      call at 0x00010004
              31  100.0                0        f
              31  100.0                0          call at 0x00010020
              31  100.0                0            f
              31  100.0                0              call at 0x00010020
              31  100.0                0                f
              31  100.0                0                  call at 0x00010020
              31  100.0                0                    f
              31  100.0                0                      call at 0x00010020
              31  100.0                0                        f
              31  100.0                0                          call at 0x00010020
              31  100.0               31                            f
              31  100.0               31                              0x00010024
";

/// The report on `WITH_ENTRIES` with a period of 1: two rows at one address, and the end of a sequence right at a sample.
pub const SOURCE_LINES: &str = "\
harts 1 period 1 samples 7 total 7
hart 0 retired 7 samples 7 end stopped
       inclusive      %            frame  scope
               7  100.0                0  <thread root>
               7  100.0                7    <unknown procedure>
               2   28.5                2      /s/a.c:7
               4   57.1                4      /s/a.c:8
               1   14.2                1      0x00010018
";

/// The structure of `WITH_INLINES`: a subprogram, and two levels of inlined calls.
pub const STRUCTURE: &str = "\
proc main 0x00010000..0x00010054
  inline outer called at /s/a.c:3 0x00010008..0x00010010,0x00010020..0x00010030
    inline inner called at /s/a.c:11 0x00010024..0x0001002c
";

/// The lines of the drill of 0.
pub const DRILL_LINES: &str = "\
drill 0 harts 4 period 97
retired 1980215 samples 20412
nodes 19772
database 4815141 bytes fold 0xebde7697
";
