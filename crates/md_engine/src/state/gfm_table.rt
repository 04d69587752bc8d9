// States of a table.

/// Names of the states of a table.
#[derive(Clone, Copy)]
pub enum State {
    Start,
    HeadRowBefore,
    HeadRowStart,
    HeadRowBreak,
    HeadRowData,
    HeadRowEscape,
    HeadRowCellBefore,
    HeadDelimiterStart,
    HeadDelimiterBefore,
    HeadDelimiterCellBefore,
    HeadDelimiterValueBefore,
    HeadDelimiterLeftAlignmentAfter,
    HeadDelimiterFiller,
    HeadDelimiterRightAlignmentAfter,
    HeadDelimiterCellAfter,
    HeadDelimiterNok,
    BodyRowStart,
    BodyRowBreak,
    BodyRowData,
    BodyRowEscape,
    BodyRowCellBefore,
}
