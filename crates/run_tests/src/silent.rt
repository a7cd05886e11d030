// An operator of the tests that does nothing.
ghost use Rattle.std.specs.Prelude.{true, None, []};
ghost use Rattle.run_tests.specs.NoRows.{no_rows-extractor, no_rows-processor, no_rows-reducer, no_rows-combiner};

use scope_value::{Cell, Column, Row, Schema, Value};
use std::alloc::{AllocError, Global};
use user_ops::{Combiner, Extractor, Processor, Reducer};

/// An operator of every kind that takes everything and gives nothing; as an extractor it refuses every record.
#[derive(Drop)]
pub struct Silent {
    pub delimiter: u8,
}

impl Extractor for Silent {
    ghost told_extractor = { λ s. record {
      takes = λ _ _. true;
      extracts = λ _ _ _. None;
      fixed_columns = None;
      delimits = λ _. s.delimiter;
    } };

    ghost extractor_law = { λ s. no_rows-extractor s.delimiter };

    fn fixed(&self, _alloc: Global, _out: &mut Vec<Column>) -> Result<bool, AllocError> {
        Ok(false)
    }

    fn accepts(&self, _output: &Schema, _args: &[Cell]) -> bool {
        true
    }

    fn delimiter(&self, _args: &[Cell]) -> u8 {
        self.delimiter
    }

    #[tactic(auto, using(crate::specs::NoRows::no_rows))]
    fn extract(
        &self,
        _alloc: Global,
        _args: &[Cell],
        _output: &Schema,
        _fields: &[Cell],
        _out: &mut Vec<Value>,
    ) -> Result<bool, AllocError> {
        Ok(false)
    }
}

impl Processor for Silent {
    ghost told_processor = { λ _. record { takes = λ _ _ _. true; processes = λ _ _. [] } };

    ghost processor_law = { λ _. no_rows-processor };

    fn accepts(&self, _input: &Schema, _output: &Schema, _args: &[Cell]) -> bool {
        true
    }

    #[tactic(auto, using(crate::specs::NoRows::no_rows))]
    fn process(
        &self,
        _alloc: Global,
        _args: &[Cell],
        _row: &Row,
        _out: &mut Vec<Row>,
    ) -> Result<(), AllocError> {
        Ok(())
    }
}

impl Reducer for Silent {
    ghost told_reducer = { λ _. record { takes = λ _ _ _. true; reduces = λ _ _. [] } };

    ghost reducer_law = { λ _. no_rows-reducer };

    fn accepts(&self, _input: &Schema, _output: &Schema, _args: &[Cell]) -> bool {
        true
    }

    #[tactic(auto, using(crate::specs::NoRows::no_rows))]
    fn reduce(
        &self,
        _alloc: Global,
        _args: &[Cell],
        _group: &[Row],
        _out: &mut Vec<Row>,
    ) -> Result<(), AllocError> {
        Ok(())
    }
}

impl Combiner for Silent {
    ghost told_combiner = { λ _. record { takes = λ _ _ _ _. true; combines = λ _ _ _. [] } };

    ghost combiner_law = { λ _. no_rows-combiner };

    fn accepts(&self, _left: &Schema, _right: &Schema, _output: &Schema, _args: &[Cell]) -> bool {
        true
    }

    #[tactic(auto, using(crate::specs::NoRows::no_rows))]
    fn combine(
        &self,
        _alloc: Global,
        _args: &[Cell],
        _left: &[Row],
        _right: &[Row],
        _out: &mut Vec<Row>,
    ) -> Result<(), AllocError> {
        Ok(())
    }
}
