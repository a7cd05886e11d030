// The operators of the program, put into a set.
ghost use Rattle.std.specs.Prelude.{◌≡◌, true};
ghost use Rattle.binding_laws.specs.There.{TellsOuterJoins};
ghost use Rattle.scope_ops.specs.There.{HasOuterJoins};

use outer_joins::{FullPairs, LeftPairs, RightPairs};
use scope_shipped::{
    InnerPairs, LogExtractor, MultiSetDifference, SplitWords, TextExtractor, TopQueries,
};
use std::alloc::{AllocError, Global};
use user_ops::{OpSet, Tells};

/// What is done with the operators of the program.
pub trait Uses {
    /// Does it, with the operators. The combiners of outer joins are there, and what stands under the name of one tells what it tells.
    fn use_operators(&mut self, alloc: Global, ops: &OpSet)
        requires has_outer { HasOuterJoins (⟦<OpSet as Tells>⟧.tells ops.now) }
        requires tells_outer { TellsOuterJoins (⟦<OpSet as Tells>⟧.tells ops.now) };
}

// The operators that read rows and make rows of one input, each in a box of its own.
#[derive(Drop)]
struct Makers {
    log: Box<LogExtractor>,
    text: Box<TextExtractor>,
    split: Box<SplitWords>,
    top: Box<TopQueries>,
}

// The operators of two inputs, each in a box of its own.
#[derive(Drop)]
struct Pairings {
    difference: Box<MultiSetDifference>,
    inner: Box<InnerPairs>,
    left: Box<LeftPairs>,
    right: Box<RightPairs>,
    full: Box<FullPairs>,
}

/// Lends the operators, each under its name, to what uses them. An error is want of memory, and nothing was done with them.
pub fn with_operators<U: Uses>(alloc: Global, user: &mut U) -> Result<(), AllocError> {
    let makers = make_makers(alloc)?;
    let pairings = make_pairings(alloc)?;
    lend(alloc, makers, pairings, user)
}

// Puts the operators under their names, and lends the set. A function that makes operators out of boxes can't hand on their set, so that
// all are put in here.
fn lend<U: Uses>(
    alloc: Global,
    makers: Makers,
    pairings: Pairings,
    user: &mut U,
) -> Result<(), AllocError> {
    let Makers {
        log,
        text,
        split,
        top,
    } = makers;
    let Pairings {
        difference,
        inner,
        left,
        right,
        full,
    } = pairings;
    let mut ops = OpSet::new(alloc);
    let has_log = ops.put_extractor(alloc, b"LogExtractor", log);
    let has_text = ops.put_extractor(alloc, b"TextExtractor", text);
    let has_split = ops.put_processor(alloc, b"SplitWords", split);
    let has_top = ops.put_reducer(alloc, b"TopQueries", top);
    let has_difference = ops.put_combiner(alloc, b"MultiSetDifference", difference);
    let has_inner = ops.put_combiner(alloc, b"InnerPairs", inner);
    let has_left = ops.put_combiner(alloc, b"LeftPairs", left);
    let has_right = ops.put_combiner(alloc, b"RightPairs", right);
    let has_full = ops.put_combiner(alloc, b"FullPairs", full);
    let has_makers = has_log & has_text & has_split & has_top;
    let has_pairings = has_difference & has_inner & has_left & has_right & has_full;
    lend_whole(alloc, &ops, has_makers & has_pairings, user)
}

// Lends the set where all operators are in it. No name stands twice there, so that a refusal is want of memory.
fn lend_whole<U: Uses>(
    alloc: Global,
    ops: &OpSet,
    is_whole: bool,
    user: &mut U,
) -> Result<(), AllocError>
    requires { is_whole ≡ true → HasOuterJoins (⟦<OpSet as Tells>⟧.tells ops.now) × TellsOuterJoins (⟦<OpSet as Tells>⟧.tells ops.now) }
{
    if !is_whole {
        return Err(AllocError);
    }
    user.use_operators(alloc, ops);
    Ok(())
}

fn make_makers(alloc: Global) -> Result<Makers, AllocError> {
    Ok(Makers {
        log: Box::new(alloc, LogExtractor)?,
        text: Box::new(alloc, TextExtractor)?,
        split: Box::new(alloc, SplitWords)?,
        top: Box::new(alloc, TopQueries)?,
    })
}

fn make_pairings(alloc: Global) -> Result<Pairings, AllocError> {
    Ok(Pairings {
        difference: Box::new(alloc, MultiSetDifference)?,
        inner: Box::new(alloc, InnerPairs)?,
        left: Box::new(alloc, LeftPairs)?,
        right: Box::new(alloc, RightPairs)?,
        full: Box::new(alloc, FullPairs)?,
    })
}
