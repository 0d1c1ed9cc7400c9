//! The help texts of the program and of its subcommands.

/// What the program does.
pub const PROGRAM: &str =
    "Puts a pre-election ballot definition (NIST SP 1500-100, version 2, JSON) into one canonical form";

/// What the program answers, and which subcommand to take.
pub const PROGRAM_AT_LENGTH: &str =
    "Puts a pre-election ballot definition (NIST SP 1500-100, version 2, JSON) into one canonical form: two
files have the same canonical form if and only if they mean the same. Take `check` to learn whether a
file is accepted and what is wrong with it, and `prepare` to make an export ready for that. Take
`compare` to learn whether two files mean the same, `differences` for all that differs, and `ballots`
for the ballots on which they differ, or for those of one file. Take `canon` for the canonical form.
The names of `@id`, the order of members and sets, and the envelope (who made the file, when and how,
and its notes) do not count. Without a command it reads a report from standard input and writes its
canonical form.";

/// The exit statuses of the program, and an example.
pub const PROGRAM_ENDS: &str = "Exit status:
  0  accepted, written, same, or help
  1  the report is refused, or the two reports differ
  2  not JSON
  3  wrong arguments, a file that cannot be opened, more than 67,108,864 bytes, a failed read or write
  4  no memory

Example:
  erd < report.json > canonical.json";

/// What `check` does.
pub const CHECK: &str = "Reports whether a report is accepted, and its faults if not";

/// What `check` reads and writes.
pub const CHECK_AT_LENGTH: &str =
    "Reads the report in FILE, and writes to standard output `accepted`, or a line for each fault, or
`not JSON`. A fault line has the place of the fault, as a JSON Pointer, and what is wrong there:

  /GpUnit/1: identifier used twice

A report is judged in four phases: its shape, identifiers, references, and the names of selections.
`erd` lists every fault of the first phase that finds one.";

/// The exit statuses of `check`, and an example.
pub const CHECK_ENDS: &str = "Exit status:
  0  accepted
  1  refused: the faults are on standard output
  2  not JSON
  3  wrong arguments, a file that cannot be opened, more than 67,108,864 bytes, a failed read or write
  4  no memory

Example:
  erd check report.json";

/// What `canon` does.
pub const CANON: &str = "Writes the canonical form of a report";

/// What `canon` reads and writes.
pub const CANON_AT_LENGTH: &str =
    "Reads the report in FILE, and writes its canonical form to standard output, with no line end. If the
report is refused, it writes nothing there, and to standard error a line for each fault, or
`not JSON`, as `erd check` does.";

/// The exit statuses of `canon`, and an example.
pub const CANON_ENDS: &str = "Exit status:
  0  written
  1  refused: the faults are on standard error
  2  not JSON
  3  wrong arguments, a file that cannot be opened, more than 67,108,864 bytes, a failed read or write
  4  no memory

Example:
  erd canon report.json > canonical.json";

/// What `compare` does.
pub const COMPARE: &str =
    "Reports the first difference in meaning of two reports, or that there is none";

/// What `compare` reads and writes.
pub const COMPARE_AT_LENGTH: &str =
    "Reads the reports in LEFT and RIGHT, and writes to standard output `same`, or one line with the first
difference in what they mean. The line names the object that differs, by its external identifier, and
says how it differs:

  style [\"local-level\",\"\",\"S1\"]: member \"OrderedContent\"

If a report is refused, it writes the lines of `erd check` for that report, each after `left: ` or
`right: `. The right report is judged only if the left one is accepted.";

/// The exit statuses of `compare`, and an example.
pub const COMPARE_ENDS: &str = "Exit status:
  0  same
  1  different, or a report is refused: the lines are on standard output
  2  a report is not JSON
  3  wrong arguments, a file that cannot be opened, more than 67,108,864 bytes, a failed read or write
  4  no memory

Example:
  erd compare vendor-a.json vendor-b.json";

/// What `differences` does.
pub const DIFFERENCES: &str =
    "Lists all differences in meaning of two reports, or says that there is none";

/// What `differences` reads and writes.
pub const DIFFERENCES_AT_LENGTH: &str =
    "Reads the reports in LEFT and RIGHT, and writes to standard output `same`, or a line for each difference
in what they mean, in rising order. Each line is one that `erd compare` writes, which has the first:

  style [\"local-level\",\"\",\"S1\"]: member \"OrderedContent\"

If a report is refused, it writes the lines of `erd check` for that report, each after `left: ` or
`right: `. The right report is judged only if the left one is accepted.";

/// The exit statuses of `differences`, and an example.
pub const DIFFERENCES_ENDS: &str = "Exit status:
  0  same
  1  different, or a report is refused: the lines are on standard output
  2  a report is not JSON
  3  wrong arguments, a file that cannot be opened, more than 67,108,864 bytes, a failed read or write
  4  no memory

Example:
  erd differences vendor-a.json vendor-b.json";

/// What `ballots` does.
pub const BALLOTS: &str = "Lists the ballots of a report, or those that differ in two reports";

/// What `ballots` reads and writes.
pub const BALLOTS_AT_LENGTH: &str =
    "Reads the report in FILE, and writes to standard output a line for each of its ballots, with the key of
its style and how many lines a voter sees on it:

  ballot [\"local-level\",\"\",\"S1\"]: 14 lines

With a second file, it writes `same ballots`, or a line for each ballot that only one report has, or
that differs. Below a ballot that differs stand lines for what does:

  ballot [\"local-level\",\"\",\"S1\"]: differs
    changed units
    moved contest [\"local-level\",\"\",\"C1\"]

Two ballots differ in their contests, headers and choices or the order of these, in which precincts and
parties get them, or in words that they print or may print of these, such as titles, names, and how many
votes are allowed.

If a report is refused, it writes what `erd check` writes for it, of two reports what `erd compare`
writes.";

/// The exit statuses of `ballots`, and an example.
pub const BALLOTS_ENDS: &str = "Exit status:
  0  written, or the same ballots
  1  ballots differ, or a report is refused: the lines are on standard output
  2  a report is not JSON
  3  wrong arguments, a file that cannot be opened, more than 67,108,864 bytes, a failed read or write
  4  no memory

Example:
  erd ballots vendor-a.json vendor-b.json";

/// What `prepare` does.
pub const PREPARE: &str = "Makes an export ready by steps, and writes the prepared report";

/// What `prepare` reads and writes.
pub const PREPARE_AT_LENGTH: &str =
    "Reads the report in FILE, does the chosen steps, and writes the prepared report to standard output, with
no line end. FILE stays as it is. To standard error it writes a line for each step that changed or left
something, and then the faults of the prepared report, as `erd check` does, with a line for each reason
that says what may fix it:

  nulls: 3 changed

A byte order mark is taken off, and told. Without `--steps` it does the steps of the group `removed`.
`erd prepare --list FILE` names the steps that would do something.";

/// The exit statuses of `prepare`, and an example.
pub const PREPARE_ENDS: &str = "Exit status:
  0  written and accepted, or a list or a report
  1  written, but refused: the faults are on standard error
  2  not JSON
  3  wrong arguments, a file that cannot be opened, more than 67,108,864 bytes, a failed read or write
  4  no memory

Example:
  erd prepare export.json > prepared.json";

/// The argument of `check`, `canon` and `prepare`.
pub const FILE: &str = "The file that has the report";

/// The first argument of `ballots`.
pub const FILE_OR_LEFT: &str = "The file that has the report, or the left one of two";

/// The second argument of `ballots`.
pub const RIGHT_IF_ANY: &str = "The file that has the right report, if there are two";

/// The first argument of `compare` and `differences`.
pub const LEFT: &str = "The file that has the left report";

/// The second argument of `compare` and `differences`.
pub const RIGHT: &str = "The file that has the right report";

/// The option `--json`, in short.
pub const JSON: &str = "Answer with JSON on one line, in place of lines of text";

/// The option `--json`, and what its answer has.
pub const JSON_AT_LENGTH: &str =
    "Answer with JSON on one line, in place of lines of text. The line has the places of faults and the keys
of objects as values of their own; the exit status is the same";

/// The option `--list`, in short.
pub const LIST: &str = "List what each step would do, and write no report";

/// The option `--list`, and what its answer has.
pub const LIST_AT_LENGTH: &str =
    "List what each step would do, and write no report. The list is on standard output, with a line for each
step that would change or leave something, its group, and how much it is. No step is done, whatever
other options there are";

/// The option `--report`, in short.
pub const REPORT: &str =
    "Answer with each change as JSON on one line, in place of the prepared report";

/// The option `--report`, and what its answer has.
pub const REPORT_AT_LENGTH: &str =
    "Answer with each change as JSON on one line, in place of the prepared report. For each step that changed
or left something, the line has the places, and what stood there before and after; for other steps, what
they would do";

/// The option `--steps`, in short.
pub const STEPS: &str = "The steps to do: names of steps or groups, with commas between them";

/// The option `--steps`, and the groups.
pub const STEPS_AT_LENGTH: &str =
    "The steps to do: names of steps or groups, with commas between them. The groups are removed (no ballot
has it), filled-in (what a voter sees stays as it is), visible (a voter sees another ballot) and view (for a
comparison: what it is to pass over). Without this option, it is removed";

/// The option `--prefer`, in short.
pub const PREFER: &str =
    "The type of identifier that the keys of objects follow, such as fips or local-level";

/// The option `--prefer`, what it changes, and when to use it.
pub const PREFER_AT_LENGTH: &str =
    "The type of identifier that the keys of objects follow, such as fips or local-level. The key of an
object is then the least of its identifiers of this type, or the least of all where it has none of
it. Without this option, it is the least of all. Objects with equal keys belong together. Use this
option if there is only one type of identifier on which the vendors agree";
