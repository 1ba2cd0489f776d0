// What `--help` and `--version` print.

/// The actions, options and statuses of the command, for `--help`.
pub const HELP: &[u8] =
    br##"isl, an ahead-of-time compiler for ISLISP (ISO/IEC 13816:2007, whole numbers) to RISC-V

usage: isl [--steps N] [--arena W] ACTION FILE       (FILE may be -, the standard input)
       isl explain WHAT

actions
  run FILE      judge the program, compile it, and run it
  show FILE     the same, and print the value of its last form
  check FILE    judge it alone: print ok, or where and why it is refused
  plain FILE    judge it, and evaluate it without compiling it
  build FILE    judge it, compile it, and write its image file to standard output
  exec FILE     run an image file
  make N        run a text of size N, from 1 to 500, and print what it takes

explain
  isl explain 45                why a file is refused, by the number of the reason
  isl explain DispatchTooLarge  or by its name
  isl explain domain-error      what an unhandled condition of a class means

options
  --steps N     at most N instructions, or N levels of plain; 50000000 without it
  --arena W     an arena of W words, from 65536 to 16777216; 4194304 without it
  --            what follows is no option
  --help        print this
  --version     print which version this is

statuses
  0 done             1 unhandled condition    2 usage          3 refused
  4 arena full       5 budget                 6 file fault     7 read fault
  8 write fault      9 no memory             10 bad image     11 trap

documents, in docs/
  QUICK.md          the language on a page       LIBRARY.md       its functions
  COMMAND.md        actions and statuses         REFUSALS.md      why a file is refused
  CONDITIONS.md     what an error means          COMING-FROM.md   from other Lisps
"##;

/// The version, and what is proved of it, for `--version`.
pub const VERSION: &[u8] = br##"isl 1.0
proved: a file is refused at its first offence, or runs as the language says it means, within its arena and its count
"##;
