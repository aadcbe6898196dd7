//! What a frame of Python's own native code is.
ghost use Rattle.std.specs.Prelude.{◌≡◌, option_copied};
ghost use Rattle.std.specs.List.{prefix_len};
ghost use Rattle.native_pairs.specs.Kinds.{behind_first, first_piece, function_kind, is_evaluation, is_gap};
ghost use Rattle.native_pairs.specs.Kinds.{hands_on, is_call_glue, is_hidden, is_native};
ghost use Rattle.native_pairs.specs.Kinds.{is_inner, is_shown_alone, kind_by_first, kind_by_pieces, pieces};

/// What a frame of Python's own native code is.
#[derive(Clone, Copy, Debug, PartialEq, Eq)]
pub enum FunctionKind {
    /// A step of the interpreter, in whose place Python frames stand.
    Step,
    /// A frame that is shown as any native one.
    Native,
    /// A frame that is left out.
    LeftOut,
}

fn is_gap(byte: u8) -> bool
    ensures { result ≡ is_gap byte }
{
    byte == b'_' || byte == b'.'
}

/// How many characters between pieces stand in front.
fn gap_len(text: &[u8]) -> usize
    ensures { result ≡ prefix_len is_gap text.now }
{
    for (at, byte) in text.iter().enumerate() {
        if !is_gap(*byte) {
            return at;
        }
    }
    text.len()
}

/// How many characters of a piece stand in front.
fn piece_len(text: &[u8]) -> usize
    ensures { result ≡ prefix_len is_inner text.now }
{
    for (at, byte) in text.iter().enumerate() {
        if is_gap(*byte) {
            return at;
        }
    }
    text.len()
}

/// The first piece of a name, empty where there is none, and what stands behind it.
fn first_piece(text: &[u8]) -> (&[u8], &[u8])
    ensures piece { result.0.now ≡ first_piece text.now }
    ensures rest { result.1.now ≡ behind_first text.now }
{
    let (_, text) = text.split_at(gap_len(text));
    text.split_at(piece_len(text))
}

fn is_evaluation(piece: &[u8]) -> bool
    ensures { result ≡ is_evaluation piece.now }
{
    piece == b"EvalFrameDefault".as_slice() || piece == b"EvalFrameEx".as_slice()
}

fn is_shown_alone(piece: &[u8]) -> bool
    ensures { result ≡ is_shown_alone piece.now }
{
    piece == b"time".as_slice()
        || piece == b"sys".as_slice()
        || piece == b"gc".as_slice()
        || piece == b"os".as_slice()
        || piece == b"unicode".as_slice()
        || piece == b"thread".as_slice()
        || piece == b"stringio".as_slice()
        || piece == b"sre".as_slice()
        || piece == b"PyGilState".as_slice()
        || piece == b"PyThread".as_slice()
        || piece == b"lock".as_slice()
}

/// What a frame is by the first piece of its function's name, where that is not the interpreter's.
fn kind_by_first(piece: &[u8]) -> FunctionKind
    ensures { result ≡ kind_by_first piece.now }
{
    if is_shown_alone(piece) {
        FunctionKind::Native
    } else {
        FunctionKind::LeftOut
    }
}

/// What a frame is, by the pieces of its function's name.
fn kind_by_name(name: &[u8]) -> FunctionKind
    ensures { result ≡ kind_by_pieces (pieces name.now) }
{
    let (first, rest) = first_piece(name);
    if first == b"PyEval".as_slice() {
        let (second, _) = first_piece(rest);
        return if is_evaluation(second) {
            FunctionKind::Step
        } else {
            FunctionKind::LeftOut
        };
    }
    kind_by_first(first)
}

/// What a frame of Python's own code is, by its function's name; one whose function is not known is left out. The names
/// are CPython's, and which count is py-spy's rule.
pub fn function_kind(name: Option<&[u8]>) -> FunctionKind
    ensures { result ≡ function_kind (option_copied name.entry) }
{
    match name {
        Some(name) => kind_by_name(name),
        None => FunctionKind::LeftOut,
    }
}

/// Whether a function only hands a call on, by its name as bytes: four helpers of Cython's, which py-spy leaves out of
/// every stack.
pub fn is_call_glue(name: &[u8]) -> bool
    ensures { result ≡ is_call_glue name.now }
{
    name == b"__Pyx_PyFunction_FastCallDict".as_slice()
        || name == b"__Pyx_PyObject_CallOneArg".as_slice()
        || name == b"__Pyx_PyObject_Call".as_slice()
        || name == b"__pyx_FusedFunction_call".as_slice()
}

/// The same; one whose name is not known doesn't.
fn hands_on(name: Option<&[u8]>) -> bool
    ensures { result ≡ hands_on (option_copied name.entry) }
{
    match name {
        Some(name) => is_call_glue(name),
        None => false,
    }
}

fn is_native(kind: FunctionKind) -> bool
    ensures { result ≡ is_native kind }
{
    match kind {
        FunctionKind::Native => true,
        FunctionKind::Step => false,
        FunctionKind::LeftOut => false,
    }
}

/// Whether a frame is hidden among Python's frames, by whether its code is of Python's own files, and by the name of
/// its function, where that is known. Hidden are Cython's functions that only hand a call on; and of Python's own code
/// what py-spy's rule shows only as the Python frames that it runs, or not at all. A frame of another file is never
/// hidden but for those four names.
pub fn is_hidden(is_own: bool, name: Option<&[u8]>) -> bool
    ensures { result ≡ is_hidden is_own (option_copied name.entry) }
{
    hands_on(name) || (is_own && !is_native(function_kind(name)))
}
