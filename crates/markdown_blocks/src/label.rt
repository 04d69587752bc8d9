// Labels of definitions and of footnote definitions (CommonMark 6.3, "matches").

pub use md_scan::label::normal_form;
