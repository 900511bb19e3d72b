//! Reports of programs with debug information: inlined procedures, source lines, and what has neither. The reports are
//! written by hand from the entries and the rows of the line tables.
use std::test::Fail;
use test_programs::debug_programs::{WITH_ENTRIES, WITH_INLINES, WITH_OLDER_UNITS};
use test_programs::products::SOURCE_LINES;
use test_programs::rows::no_row;
use test_runs::runs::{RUN, Run, other_run};

/// Inlined code in two pieces and of two levels; the entries have calls, and the line table three rows.
const INLINED: &str = "\
harts 1 period 2 samples 10 total 20
hart 0 retired 20 samples 10 end exit 19
       inclusive      %            frame  scope
              20  100.0                0  <thread root>
              20  100.0               20    main
               6   30.0                6      [I] outer called at /s/a.c:3
               2   10.0                2        [I] inner called at /s/a.c:11
               2   10.0                2          0x00010024
               2   10.0                2        /s/a.c:8
               2   10.0                2        0x0001002c
               2   10.0                2      /s/a.c:7
               2   10.0                2      /s/a.c:8
               2   10.0                2      0x0001001c
               2   10.0                2      0x00010034
               2   10.0                2      0x0001003c
               2   10.0                2      0x00010044
               2   10.0                2      0x0001004c
";

/// Units of older versions are passed over.
const OLDER: &str = "\
harts 1 period 31 samples 1 total 31
hart 0 retired 49 samples 1 end exit 0
       inclusive      %            frame  scope
              31  100.0                0  <thread root>
              31  100.0                0    <unknown procedure>
              31  100.0                0      call at /s/a.c:7
              31  100.0                0        f
              31  100.0                0          call at 0x00010020
              31  100.0                0            f
              31  100.0                0              call at 0x00010020
              31  100.0                0                f
              31  100.0                0                  call at 0x00010020
              31  100.0                0                    f
              31  100.0                0                      call at 0x00010020
              31  100.0                0                        f
              31  100.0                0                          call at 0x00010020
              31  100.0               31                            f
              31  100.0               31                              0x00010024
";

const INLINED_RUN: Run = Run {
    name: "inlined procedures",
    file: WITH_INLINES,
    words: "profile p i s 2 1 d",
    report: INLINED,
    ..RUN
};

static RUNS: [Run; 5] = [
    INLINED_RUN,
    Run {
        name: "inlined procedures, merged by two workers",
        words: "profile p i s 2 2 d",
        ..INLINED_RUN
    },
    Run {
        name: "inlined procedures, merged by sixteen workers",
        words: "profile p i s 2 16 d",
        ..INLINED_RUN
    },
    Run {
        name: "rows of a line table",
        file: WITH_ENTRIES,
        words: "profile p i s 1 1 d",
        schedule: b"harts 1\n0 7\n",
        report: SOURCE_LINES,
        ..RUN
    },
    Run {
        name: "units of older versions",
        file: WITH_OLDER_UNITS,
        words: "profile p i s 31 1 d",
        report: OLDER,
        ..RUN
    },
];

#[test]
fn reports_of_programs_with_debug_information(rt: HostRuntime) -> Result<(), Fail> {
    no_row(other_run(&rt, &RUNS)?)
}
