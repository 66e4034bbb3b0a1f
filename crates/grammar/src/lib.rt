// The grammar: what a text reads as, the types that a primary begins as, and the function that a word names.
#![tactic(auto)]

ghost use Rattle.std.specs.Prelude.{◌≡◌};
ghost use Rattle.grammar.specs.Grammar.{function_of};

use ascii::eq_ignore_ascii_case;

// A leaf that is no name, with its duration in milliseconds or its count.
#[derive(Clone, Copy, PartialEq, Eq)]
pub enum Test {
    OlderThan(u64),
    Readable(u64),
}

#[derive(Clone, Copy, PartialEq, Eq)]
pub enum Combinator {
    AtLeast(u64),
    All,
    Any,
}

// A store's name, as its part of the text; another leaf; a bracket; a function with a list, and the place of its word. Where the text
// continues is in each case, so that one pattern of the parser takes it out with the rest.
#[derive(Clone, Copy, PartialEq, Eq)]
pub enum PrimaryStart {
    Name {
        start: usize,
        end: usize,
        next: usize,
    },
    Leaf {
        test: Test,
        next: usize,
    },
    Group {
        next: usize,
    },
    List {
        combinator: Combinator,
        place: usize,
        next: usize,
    },
}

// A function of the grammar.
#[derive(Clone, Copy, PartialEq, Eq)]
pub enum Function {
    OlderThan,
    Readable,
    Any,
    All,
    AtLeast,
}

// A function's name, in lower case.
#[derive(Clone, Copy)]
struct Call {
    name: &'static [u8],
    function: Function,
}

static CALLS: [Call; 7] = [
    Call {
        name: b"older_than",
        function: Function::OlderThan,
    },
    Call {
        name: b"readable",
        function: Function::Readable,
    },
    Call {
        name: b"oneof",
        function: Function::Any,
    },
    Call {
        name: b"any",
        function: Function::Any,
    },
    Call {
        name: b"allof",
        function: Function::All,
    },
    Call {
        name: b"all",
        function: Function::All,
    },
    Call {
        name: b"at_least",
        function: Function::AtLeast,
    },
];

// The function that a word names, in any case of letters, if it names one.
pub fn function_of(word: &[u8]) -> Option<Function>
    ensures { result ≡ function_of word.now }
{
    for call in &CALLS {
        if eq_ignore_ascii_case(word, call.name) {
            return Some(call.function);
        }
    }
    None
}
