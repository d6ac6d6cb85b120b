// What `--help` says beside the names that `clap` knows: of the program, of each word and of each setting.

// The end of each word's help.
macro_rules! with_limits {
    ($text:literal) => {
        concat!(
            $text,
            "\n\nThe script comes on standard input. The status is 0 where a result is written, 1 where that answers\n",
            "a condition by no, 2 where the line, the script, a list or a limit is refused, 3 where memory or\n",
            "threads run out, and 4 where a read or a write fails.\n\n",
            "A script has at most 65536 bytes, 8 objects, 8 clients and 8 templates; a client 64 blocks and 16\n",
            "variables; a repeat 1000 turns; all blocks 100000 requests and 1000000 steps; and a list 1000000\n",
            "actors."
        )
    };
}

pub const ABOUT: &str = "\
Plays scripts of SCOOP separate blocks: objects, clients, and blocks that reserve objects.
The script is read from standard input.";

pub const EXAMPLES: &str = "\
A script:
  object a account 100
  client ann { separate a { a.deposit(5); x = a.balance(); } }
  client bob { separate a { a.withdraw(7); } }

Examples, with the script in the file my.script:
  qs check < my.script
      says whether it is a script, and how large it is
  qs play < my.script
      plays it: ann and bob take turns
  qs play --pick '@bob*2,@a' < my.script
      has bob step twice and a's handler once, before the turns
  qs run --counts < my.script
      runs it on threads, and shows the synchronisations sent
  qs outcomes < my.script
      lists all results that the script can have
  qs ask --always 'a.balance() == 98' < my.script
      answers whether a has 98 at the end, whoever comes first

A report lists the blocks in the order of their reservations, each with its requests and replies,
then the objects' last states and how many synchronisations were sent. `qs WORD --help` says more of
a word, and `qs help language` all of scripts: declarations, statements, and the operations of each
kind of object.";

pub const CHECK: &str =
    "Checks the script, and counts its objects, clients, blocks, requests and steps";

pub const CHECK_EXAMPLE: &str = with_limits!(
    "\
Examples:
  qs check < my.script
      counts; the load is how many requests there are at most, the weight how many steps
  qs check --verbose < my.script
      says, too, how much of each limit is left: `limits: 2 of 8 clients, 6 left`

What is warned of, and how much is left, stands on standard error."
);

pub const GRAPH: &str =
    "Shows each block's control-flow graph, and which objects are held at its nodes";

pub const GRAPH_EXAMPLE: &str = with_limits!(
    "\
Examples:
  qs graph < my.script
      shows the graphs as text
  qs graph --format dot < my.script | dot -Tsvg > my.svg
      draws them, by `dot` of graphviz

A line `5 sync a removed -> 6 held a` is node 5, a synchronisation with the handler of a, which
static coalescing removes, since on every path to it a is held; node 6 comes next."
);

pub const RULES: &str = "Plays the script by the plain rules, one synchronisation for each query";

pub const RULES_EXAMPLE: &str = with_limits!(
    "\
Examples:
  qs rules --pick '@bob*2,@a' --rounds 3 < my.script
      has these actors step, one after another; then, three times, each client and each handler
  qs rules --order @bob,@ann < my.script
      runs a whole block of bob, and then one of ann

An actor is a client or an object, by number or by name with an @ before it: c1 or @bob, h0 or @a.
`@bob*2` stands for `@bob,@bob`; after a number there is no `*`. An order stands without picks and
rounds. Steps and queues are told beside a report that is text or JSON."
);

pub const PLAY: &str = "Plays the script on the optimised machine: lanes of chunks, and coalescing";

pub const PLAY_EXAMPLE: &str = with_limits!(
    "\
Examples:
  qs play --mode static --chunk 4 --pick '@bob*2,@a' < my.script
      has these actors step, one after another; then each client and each handler, round by round
  qs play --order @bob,@ann < my.script
      runs a whole block of bob, and then one of ann

An actor is a client or an object, by number or by name with an @ before it: c1 or @bob, h0 or @a.
`@bob*2` stands for `@bob,@bob`; after a number there is no `*`. An order stands without picks and
rounds. Steps and queues are told beside a report that is text or JSON.

Along one order of reservations neither the mode nor the size of chunks changes what a block sees.
They change how many synchronisations are sent, and may change who comes first."
);

pub const SYNCS: &str =
    "Counts the synchronisations that each mode of coalescing sends, and what it saves";

pub const SYNCS_EXAMPLE: &str = with_limits!(
    "\
Examples:
  qs syncs < my.script
      for each block and each of its objects, how many synchronisations each of the four modes sends
  qs syncs --order @bob,@ann < my.script
      the same where a whole block of bob runs first, and then one of ann

The blocks run one after another, without `--order` in the order of `qs play`. A line
`sync a none 3 dynamic 1 saves 2 static 2 saves 1 both 1 saves 2` says that the block synchronises
with the handler of a 3 times without coalescing, and only once with `--mode both`, which saves 2.
The last line has the sums."
);

pub const RUN: &str = "Runs the script with each client and each handler on a thread of its own";

pub const RUN_EXAMPLE: &str = with_limits!(
    "\
Examples:
  qs run --mode none --counts < my.script
      runs it once; the threads decide the order of reservations
  qs run --times 1000 < my.script
      runs it 1000 times, and counts how often each end came

Along the order of reservations each block shows what it does alone. An end that came has the number
that `qs outcomes` gives it, where there are at most 1000000 configurations; counts of
synchronisations, marks of what was refused and pictures are of a single run."
);

pub const OUTCOMES: &str =
    "Lists all that the script can come to, each once, with an order of blocks that leads there";

pub const OUTCOMES_EXAMPLE: &str = with_limits!(
    "\
Examples:
  qs outcomes < my.script
      lists every end: its objects, its variables, and an order of blocks that leads there
  qs outcomes --limit 5000 < my.script
      lists all of them, or nothing where there are over 5000 configurations
  qs outcomes --ends < my.script
      lists the ends alone, so that `diff` compares two scripts
  qs outcomes --after @bob,@ann < my.script
      lists what comes after a block of bob and then one of ann
  qs outcomes --alike < my.script
      lists as one what differs only by which of some alike clients did what
  qs outcomes --threads 4 < my.script
      searches by four threads, and lists the same
  qs outcomes --format dot < my.script | dot -Tsvg > my.svg
      draws how blocks lead from one configuration to the next, up to 200 of them

A line `outcome 2 c1,c0` begins the second result: the block of client 1, bob, first, then that of
client 0, ann, as `--order @bob,@ann` plays them. Below it stand the objects at the end, and each
client with its variables.
Configurations, which the last line counts, are where the script can stand between two blocks.
Clients are alike if their texts are the same but for names. `qs ask` asks about all results."
);

pub const ASK: &str =
    "Answers whether conditions hold at all ends, at some, or on the way, and which values a sum has";

pub const ASK_EXAMPLE: &str = with_limits!(
    "\
Examples:
  qs ask --always 'a.balance() + b.balance() == 200' < my.script
      does it hold at every end? If not, an order shows one where it does not
  qs ask --some '!(bob.x < 3) && a.refused() > 0' < my.script
      does it hold at some end? If so, an order shows one
  qs ask --throughout 'a.balance() >= 0' < my.script
      does it hold at the beginning and after each block of each order?
  qs ask --ever 'ann.x == 20' < my.script
      does it hold at the beginning, or after some block of some order?
  qs ask --never 'ann.x == 20' < my.script
      does it hold at none of these?
  qs ask --values 'ann.x + bob.x' < my.script
      which values does it have at the ends, and after which order?
  qs ask --after @bob --always 'a.balance() == 200' < my.script
      the same of what comes after a block of bob
  qs ask < my.script
      do the claims of the script hold, lines as `#? always a.balance() == 200`?

A condition compares sums of numbers, of variables as bob.x, and of queries as a.balance(), by ==,
!=, <, <=, > or >=; comparisons are joined by &&, || and !, with parentheses. One that begins with a
`-` is written after a `=`: --always='-1 < ann.x'. `qs play --order` plays an order that is shown."
);

pub const FRONTS: &str =
    "Lists what the script can come to after so many blocks, each once: parts of a large search";

pub const FRONTS_EXAMPLE: &str = with_limits!(
    "\
Examples:
  qs fronts 3 < my.script
      lists where the script can stand after three blocks
  qs fronts 3 --after @bob < my.script
      lists that after a block of bob and three blocks more
  qs fronts 1 --leads @ann:@bob,@ann < my.script
      lists that one block after each of two orders

From each of them a part of a search goes on by --after, on one machine or on many."
);

pub const ESTIMATE: &str = "Says before any search how large it can be";

pub const ESTIMATE_EXAMPLE: &str = with_limits!(
    "\
Examples:
  qs estimate < my.script
      how many configurations there are at most, and for `ask --throughout` at least
  qs estimate --after @bob,@ann < my.script
      the same after a block of bob and then one of ann"
);

// Headings of settings.

pub const WHO: &str = "Who goes when";

pub const SHOWN: &str = "What is shown";

pub const MACHINE: &str = "The machine";

pub const SEARCH: &str = "The search";

pub const QUESTIONS: &str = "Questions";

pub const FORMAT: &str = "How it is written: text or json";

pub const REPORT_FORMAT: &str = "How it is written, svg being a picture: text, json or svg";

pub const GRAPH_FORMAT: &str = "How it is written, dot being a drawing: text, json or dot";

pub const OUTCOMES_FORMAT: &str = "How it is written, dot being a drawing: text, json or dot";

pub const MODE: &str = "Which coalescing is done: none, dynamic, static or both";

pub const CHUNK: &str = "How many commands travel in one chunk: 1 to 32";

pub const ROUNDS: &str =
    "How many rounds at most, after the picks: 0 to 1000000 [default: 1000000]";

pub const LIMIT: &str = "How many configurations at most: 1 to 4294967295";

pub const ENDS: &str = "Lists the ends alone, each once, in the order of their texts";

pub const ALIKE: &str = "Lists one of all results that differ by alike clients alone";

pub const BLOCKS: &str = "How many blocks: 1 to 512";

pub const LEADS: &str = "Lists that after each of several orders, joined by colons";

pub const THREADS: &str = "How many threads search: 1 to 64 [default: 1]";

pub const ASK_THREADS: &str = "How many questions are answered side by side: 1 to 64 [default: 1]";

pub const TIMES: &str = "Runs it so often, 1 to 100000, and counts how often each end came";

pub const ALWAYS: &str = "Answers whether it holds at every end";

pub const SOME: &str = "Answers whether it holds at some end";

pub const THROUGHOUT: &str = "Answers whether it holds at the beginning and after each block";

pub const EVER: &str = "Answers whether it holds at the beginning or after some block";

pub const NEVER: &str = "Answers whether it holds at none of these";

pub const VALUES: &str = "Lists the values that it has at the ends, with an order for each";

pub const AFTER: &str = "Whose blocks were run before, as @bob*2,@ann";

pub const ORDER: &str = "Whose blocks run, one whole block after another, as @bob*2,@ann";

pub const PICK: &str = "Who steps first, as @bob*2,@a";

pub const COUNTS: &str = "Shows how many synchronisations each block has sent";

pub const REFUSALS: &str = "Marks what was refused, and queries of what is not there";

pub const STEPS: &str = "Writes a line for each step before the report";

pub const QUEUES: &str = "Writes who waits for what after the report of an unfinished run";

pub const VERBOSE: &str = "Says how much of each limit of the language is left";

pub const WARN: &str = "Warns of what may be meant otherwise, as a variable that is never set";
