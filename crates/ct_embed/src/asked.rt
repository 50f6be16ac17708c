//! What is asked of what a caller holds.

// The answer of what is held, which is put back then; or what is told where it is closed.
macro_rules! asked {
    ($own:ident in $held:ident, $alloc:ident else $closed:expr => $answer:expr) => {{
        let Some(mut $own) = $held.take($alloc) else {
            return $closed;
        };
        let answer = $answer;
        $held.put($own);
        answer
    }};
}

pub(crate) use asked;
