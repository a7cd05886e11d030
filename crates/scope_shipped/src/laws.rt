// What the shipped operators tell.
ghost use Rattle.std.specs.Prelude.{◌≡◌};
ghost use Rattle.scope_shipped.specs.InnerPairs.{inner_pairs};
ghost use Rattle.scope_shipped.specs.LogExtractor.{log_extractor};
ghost use Rattle.scope_shipped.specs.MultiSetDifference.{multi_set_difference};
ghost use Rattle.scope_shipped.specs.SplitWords.{split_words};
ghost use Rattle.scope_shipped.specs.TextExtractor.{text_extractor};
ghost use Rattle.scope_shipped.specs.TopQueries.{top_queries};

use crate::inner_pairs::InnerPairs;
use crate::log_extractor::LogExtractor;
use crate::multi_set_difference::MultiSetDifference;
use crate::split_words::SplitWords;
use crate::text_extractor::TextExtractor;
use crate::top_queries::TopQueries;
use user_ops::{Combiner, Extractor, Processor, Reducer};

/// What each extractor tells: exactly its written predicate, rows, fixed columns and delimiter.
pub fn extractors_law(log: &LogExtractor, text: &TextExtractor)
    ensures log { ⟦<LogExtractor as Extractor>⟧.told_extractor log.now ≡ log_extractor }
    ensures text { ⟦<TextExtractor as Extractor>⟧.told_extractor text.now ≡ text_extractor }
{}

/// What each processor, reducer and combiner tells: exactly its written predicate and meaning.
pub fn operators_law(
    words: &SplitWords,
    top: &TopQueries,
    difference: &MultiSetDifference,
    pairs: &InnerPairs,
)
    ensures words { ⟦<SplitWords as Processor>⟧.told_processor words.now ≡ split_words }
    ensures top { ⟦<TopQueries as Reducer>⟧.told_reducer top.now ≡ top_queries }
    ensures difference { ⟦<MultiSetDifference as Combiner>⟧.told_combiner difference.now ≡ multi_set_difference }
    ensures pairs { ⟦<InnerPairs as Combiner>⟧.told_combiner pairs.now ≡ inner_pairs }
{}
