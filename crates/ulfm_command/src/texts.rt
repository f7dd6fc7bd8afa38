//! The texts that help and the version show.

/// The program's version.
pub const VERSION: &str = "0.1.0";

/// What help of the program shows behind its commands.
pub(crate) const ULFM_HELP: &str =
    "Example: in a world of one rank, the rank contributes a flag and asks for the reply.

    printf 'ulfm 1 1 1 2\\nagree 0 0 000000ff\\npoll 0 0\\n' | ulfm run

prints

    started
    agreed 000000ff failed 0 clean

Exit statuses, and what standard error says:
  0  all was done, or help or the version was shown
  1  ulfm: line N: KIND         line N of the script has this fault
  1                             the trace is illegal, or the log isn't explained
  1  ulfm: bad log              a stored log's head is none, or its limits are out of range
  2  ulfm: bad command line     found before anything is read
  3  ulfm: out of memory        memory was refused, or a thread
  3  ulfm: read failed          standard input failed
  3  ulfm: write failed         standard output failed
  3  ulfm: held                 a rank of a race was held back

'ulfm run --help' lists what a script may say, 'ulfm check --help' what a trace does,
'ulfm draw --help' how it is drawn, and 'ulfm race --help' what a race prints.";

/// What help of `ulfm run` shows behind its options.
pub(crate) const RUN_HELP: &str =
    "A script is ASCII. Its lines end in one newline each, the last one too, and one space
stands between two words. The first line gives the limits of the world:

  ulfm V RANKS COMMS ROUNDS    V is the script's version, 1 or 2;
                               ranks 1 to 1024, communicators 1 to 256 (the world's is 0),
                               rounds 1 to 4096;
                               RANKS + 2*COMMS + 2*COMMS*ROUNDS*RANKS is at most 4194304

Each further line is a call of rank R on communicator C, and is answered in one line:

  fail R          declared, already-failed
  get R C         failed 1 2, failed none
  ack R C N       acked N
  agree R C F     started
  shrink R C      started
  barrier R C     started
  poll R C        pending, agreed F failed N clean, agreed F failed N raised,
                  shrunk J context X members 0 2 3, done
  revoke R C      revoked, already-revoked
  isrevoked R C   yes, no
  free R C        freed

Version 2 has two more, those of the interface of 2013:

  failure_ack R C          acked N: all known failures are acknowledged
  failure_get_acked R C    failed 1 2, failed none: those that R has acknowledged

A call that can't be made is answered 'refused NUMBER NAME', and the script goes on:

  1 self-failed, 2 no-such-comm, 3 busy, 4 shrink-open, 5 rounds-used-up, 6 idle,
  7 mismatch, 8 no-context, 9 no-room, 10 is-revoked, 11 proc-failed, 12 world-kept,
  13 no-such-rank

N is at most 9999, a rank at most 1023, a communicator at most 255, each in decimal without
leading zeros. F is a flag of eight or sixteen lower case hexadecimal digits, in version 2 of
sixteen; it is printed with eight where its upper half is 0. A line has at most 64 bytes
without its newline, and a script at most 100000 lines.

With --steps a script of single atomic steps is run, and its trace is printed. The first
line is 'ulfm-steps 1 RANKS COMMS ROUNDS', and each further line is one of these:

  call X          the rank of the call X, a line as above but no 'fail', begins it; no step
  step R N        up to N atomic steps of R's call, N from 1 to 9999
  before R K      R's steps up to its next one of the name K, which isn't made
  finish R        all steps of R's call
  fail R          rank R is declared failed, whole

K is one of list, settle, arrive, revoke, revocation, block, mark, slot, cache, wing, comm,
spawn, arrival.

With --echo each line is 'CALL -> REPLY', the call as the script spells it. A trace has its calls,
so that --steps prints the same with --echo.

Nothing appears before the input ends or 8192 bytes of output are full.

Examples:

    printf 'ulfm 1 1 1 2\\nagree 0 0 000000ff\\npoll 0 0\\n' | ulfm run

prints

    started
    agreed 000000ff failed 0 clean

and with a declaration between a rank's look and its exchange

    printf 'ulfm-steps 1 2 1 2\\ncall agree 1 0 00000005\\nbefore 1 settle\\nfail 1\\nfinish 1\\n' |
        ulfm run --steps

prints

    ulfm-trace 1 2 1 2
    call agree 1 0 00000005
    look 1 0
    call fail 1
    event - fail 1
    reply - 1 declared
    event 1 settle 0 0 1 flag 00000005 known 0 acked 0
    reply 1 2 started

Exit statuses, and what standard error says:
  0  the script was read to its end
  1  ulfm: line N: KIND         line N has this fault, and all lines before it were answered:
                                cut, long, lines, header, limits, verb, words, number, flag,
                                and with --steps also step, open
  2  ulfm: bad command line     nothing was read
  3  ulfm: out of memory        memory was refused
  3  ulfm: read failed          standard input failed
  3  ulfm: write failed         standard output failed";

/// What help of `ulfm migrate` shows behind its options.
pub(crate) const MIGRATE_HELP: &str =
    "The script is one of version 1, as 'ulfm run --help' tells. The header's version becomes 2. A flag
of eight digits gets eight zeros in front. 'ack R C N' with an N of 1024 or more, which is the
acknowledgement of all failures, becomes 'failure_ack R C'. Every other line stays as it is. The
script that is written prints what the one that was read prints.

Example:

    printf 'ulfm 1 2 1 4\\nack 0 0 1024\\nagree 0 0 0000000f\\n' | ulfm migrate

prints

    ulfm 2 2 1 4
    failure_ack 0 0
    agree 0 0 000000000000000f

Exit statuses, and what standard error says:
  0  the script was read to its end
  1  ulfm: line N: KIND         line N has this fault, one of 'ulfm run --help', and all lines
                                before it were written; a script of version 2 has 'header'
  2  ulfm: bad command line     nothing was read
  3  ulfm: out of memory        memory was refused
  3  ulfm: read failed          standard input failed
  3  ulfm: write failed         standard output failed";

/// What help of `ulfm check` shows behind its options.
pub(crate) const CHECK_HELP: &str =
    "A trace tells what ranks did, line by line. It is ASCII, and its lines end in one newline each,
the last one too. The first line is 'ulfm-trace 1 RANKS COMMS ROUNDS', with the limits of
'ulfm run --help'. B is a rank, or - for the outside. Each further line is one of these:

  call X                            the call X begins, a line of a call script
  look R L                          R's look has ended, and found L failures
  event B fail R                    B makes this event
  event B settle C K R flag F known A acked D
  event B settle C K R ctx F known A acked D
  event B mark C K R known A
  event B arrive C K R
  event B revoke C
  event B spawn J C K
  reply B P TEXT                    B's call is answered, by the first P events

'ulfm run --steps' prints such traces. The answer is

  legal                             the sequential object answers so, at each reply's point
  illegal line N WHY                the lines before are a legal trace, and with line N they aren't

and WHY the first of these that holds: text (not of this grammar), call (a call under way,
or none), look (not due, or another number), event (may not happen), own (not its caller's
to make), reply (no answer at its point).

A line has at most 8192 bytes without its newline, and a trace at most 5000000 lines.

With --explain the answer's line comes first, as ever. Behind it, where the trace is illegal, each
line 'legal: X' has a line X that is legal in the bad one's place; there may be none, and there are
at most four. Then come notes, each behind two spaces: the bad line, what is wrong with it (the
text, the call, the caller, the look, the event, the point, the group or the answer), the call and
its look, the communicator and its round, and the events that matter to it, each behind its number.
The trace is kept in memory then.

With --observed it is a log of calls and replies that is judged, as any implementation can write
one. Its first line is 'ulfm-observed 1 RANKS COMMS ROUNDS ORDER FAILURES', and each further line is
one of these:

  call X                            the call X begins, a line of a call script
  reply B TEXT                      B's call is answered; * stands for what wasn't logged
  lost R                            the end of rank R's lines was lost

ORDER is 'time', or 'ranks' where only the lines of one caller are in order. FAILURES is 'any', or
'logged' where ranks fail only in calls of 'fail'. The answer is

  explained                         some legal trace has these calls and replies, and with --witness
                                    it comes behind this line
  not explained: WHY                the search found none; behind it come lines of the log that
                                    can't stand together
  unknown: the search was given up

Only 'explained' is proved: the trace was judged and compared with the log. docs/TRACES.md says how a
log is written.

Exit statuses, and what standard error says:
  0  legal, or explained
  1  illegal, or not explained
  1  ulfm: line N: KIND         line N is none of a log
  2  ulfm: bad command line     nothing was read
  3  ulfm: out of memory        memory was refused
  3  ulfm: read failed          standard input failed
  3  ulfm: write failed         standard output failed
  4                             the search was given up";

/// What help of `ulfm draw` shows behind its options.
pub(crate) const DRAW_HELP: &str =
    "The trace is one of 'ulfm check --help', of at most 20000 lines. The picture is an SVG file of its
own, in which time runs down and each line of the trace has a row. A trace that is illegal is drawn
up to its line, which is red, with the reason.

With --text the same rows are drawn in characters. Behind the columns and a tab stands the line of
the trace, so that 'cut -s -f 2-' gives the trace back. On a terminal that has them there are box
characters and colours, but not with --ascii, and no colours where NO_COLOR is set.

Example:

    ulfm run --steps < examples/late_arrival.steps | ulfm draw > picture.svg

Exit statuses, and what standard error says:
  0  the trace is legal, and was drawn
  1  the trace is illegal, and was drawn up to its line
  1  ulfm: line 20001: lines    the trace has more lines, and nothing was drawn
  2  ulfm: bad command line     nothing was read
  3  ulfm: out of memory        memory was refused
  3  ulfm: read failed          standard input failed
  3  ulfm: write failed         standard output failed";

/// What help of `ulfm explore` shows behind its options.
pub(crate) const EXPLORE_HELP: &str =
    "A program gives each rank its calls, one behind another. The first line is 'ulfm-explore 1 RANKS
COMMS ROUNDS', of at most 8 ranks, 8 communicators and 15 rounds. '#' begins a remark. Each further
line is one of these:

  may die R ..       R may be declared at any moment, and makes no step from then on
  may fail R ..      R may be declared at any moment, and goes on until it is refused
  most N             at most N ranks are declared so
  rank R .., rank all    the lines behind it are the program of each of these
  get C, ack C N, agree C F, shrink C, barrier C, poll C, revoke C, isrevoked C, free C
                     a call; C is a number, or cur: the last that the rank got from a shrink
  wait C             polls until the reply isn't pending
  fail R             the rank declares R
  quiet CALL         the reply isn't part of the outcome
  at NAME, go NAME, if WORDS go NAME    jumps; if: where WORDS stand in the last reply, _ is any
  say WORDS, end     words of the rank's own; the program's end
  alike R ..         is there an outcome in which two of these ended with other words?
  ended R ..         is there one in which one of these waits for good?
  find R WORDS       is there one in which all such lines hold?

Each outcome is printed once, with what became of each rank: ended, out (it was refused, since it
is declared), died, stuck. Then each question's answer: none, or an outcome and a script of steps
for 'ulfm run --steps'. Each outcome was shown by the step engine. That there are no others rests
on tests.

Example:

    ulfm explore < examples/explore/by_barrier.ulfm

Exit statuses, and what standard error says:
  0  all schedules were tried
  1  ulfm: line N: KIND         line N has this fault: those of scripts, and
                                rank (outside a section), name (of no line, or of two)
  1  ulfm: no such outcome      there are fewer than N
  2  ulfm: bad command line     nothing was read
  3  ulfm: out of memory        memory was refused
  3  ulfm: read failed          standard input failed
  3  ulfm: write failed         standard output failed
  4  more than STATES states came up, and not all schedules were tried
  5  ulfm: not confirmed        the step engine didn't show an outcome that was found";

/// What help of `ulfm replay` shows behind its options.
pub(crate) const REPLAY_HELP: &str =
    "A stored log is what ranks on several machines replay: a head of 24 bytes with the world's limits,
and then entries of 24 bytes, as docs/FORMATS.md has them. Each entry that is legal behind those
before it is printed as the event's line of a trace. Entries that aren't, and bytes that are no
entry, print nothing. A last piece of fewer than 24 bytes was cut off, and is no entry.

Behind an entry that decides an agreement round stands what the round decided:

  decided C K flag F failed N clean    round K of communicator C: the flags combined by AND, the
  decided C K flag F failed N raised   size of the failed group, and whether an error was raised
  decided C K ctx F failed N ..        the same of a shrink: the context ids that all had free
  decided C K mismatch failed N ..     both were offered
  decided C K nobody failed N ..       no member contributed

At the end stand 'entries N taken M', with the number of all whole entries and of those that were
printed, and 'digest D', where D is FNV-1a of 64 bits over the bytes of all whole entries.

Example:

    ulfm replay < examples/logs/recovery.log

Exit statuses, and what standard error says:
  0  the log was read to its end
  1  ulfm: bad log              the head is none, or its limits are out of range
  2  ulfm: bad command line     nothing was read
  3  ulfm: out of memory        memory was refused
  3  ulfm: read failed          standard input failed
  3  ulfm: write failed         standard output failed";

/// What help of `ulfm race` shows behind its options.
pub(crate) const RACE_HELP: &str =
    "N is 1 to 64, K is 1 to 1000, and R is a rank, from 0, below N. In round k rank r contributes
32 ones but bit (r + k) mod 32. A race prints for each round, and for the shrink behind them

  round k agreed F failed N clean     the flags combined by AND, the size of the failed group,
  round k agreed F failed N raised    and whether an error was raised
  round k nobody                      no rank has a reply
  shrunk 1 context 1 members 0 1 3    the new communicator's members
  shrink nobody                       no rank has it

Where no rank is declared, who returns is still not promised. Which reply a race with a
declared rank prints depends on when the declaration came.

Example:

    ulfm race --ranks 4 --rounds 2

prints

    round 0 agreed fffffff0 failed 0 clean
    round 1 agreed ffffffe1 failed 0 clean
    shrunk 1 context 1 members 0 1 2 3

Exit statuses, and what standard error says:
  0  all lines were written
  2  ulfm: bad command line     nothing was done
  3  ulfm: out of memory        memory was refused, or a thread
  3  ulfm: write failed         standard output failed
  3  ulfm: held                 a rank was held back";
