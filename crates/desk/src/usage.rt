/// What the program can do.
pub const USAGE: &str = "\
The order desk: checks command definitions, and says everything that is wrong with one.

usage: desk COMMAND

  ranges [--plain] FILE   says of each line what range of values it is, as Rust writes ranges:
                          n, a..b, a..=b, a.., ..b, ..=b or ..
                          with --plain: `range LEAST MOST`, `refused 101` or `no range`
  replay [--plain] [--flags N] FILE
                          runs the calls of a script on a new book, one a line, and says what each
                          did, and at each report what came and went since the last one; report,
                          first and find ask the book under N layers of standard flags, 0 to 3;
                          with --plain: `mark N`, `ok`, `refused N`, `refused 109 needs N`,
                          `breaches N` and a line for each, a line or `none` for first, `place N`,
                          `not now`; docs/SCRIPTS.md has the calls
  tour [--plain]          reports what is wrong with some sample definitions, alone and with the
                          standard flags help and version; with --plain: `breaches N`, and a line
                          `RULE FIRST SECOND LIST ITEM ITEM` for each
  samples                 runs each command on the files in the folder samples/
  help                    prints this

FILE may be - for standard input. The status is 0, or 1 where a file cannot be read, a line
of a script is no call, or the command is not understood.
";
