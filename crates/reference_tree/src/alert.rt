// Alerts: block quotes with the marker of a kind on their first line (own choice, as on GitHub).

ghost use Rattle.std.specs.Prelude.{◌≡◌, ◌≤◌, true, drop, length, IfSome};
ghost use Rattle.md_meaning.specs.Alert as alert;
ghost use Rattle.md_meaning.specs.Rest as r;
ghost use Rattle.reference_tree.specs.Alerts.{HasRoom};
ghost use Rattle.reference_tree.specs.Rests.{rest_meaning};

use crate::rest::Rest;
use md_engine::configuration::ParseOptions;
use md_meaning::alert::AlertKind;
use md_meaning::html_names::is_name;
use md_scan::bytes::is_blank;

fn marker_of(kind: AlertKind) -> &'static str
    ensures { result.now ≡ alert.marker_of kind }
{
    match kind {
        AlertKind::Note => "[!NOTE]",
        AlertKind::Tip => "[!TIP]",
        AlertKind::Important => "[!IMPORTANT]",
        AlertKind::Warning => "[!WARNING]",
        AlertKind::Caution => "[!CAUTION]",
    }
}

/// Whether bytes begin with the marker of a kind, ASCII case ignored.
#[tactic(auto, using(std::proofs::lemmas::List::take_min))]
fn has_marker(kind: AlertKind, bytes: &[u8]) -> bool
    ensures { result ≡ alert.has_marker kind bytes.now }
{
    let marker = marker_of(kind);
    is_name(marker, &bytes[..marker.len().min(bytes.len())])
}

/// Whether spaces and tabs alone are after so many bytes as the marker of a kind has.
#[tactic(auto, using(std::proofs::lemmas::List::drop_min))]
fn ends_after(kind: AlertKind, bytes: &[u8]) -> bool
    ensures { result ≡ r.is_blank (drop (length (alert.marker_of kind)) bytes.now) }
{
    is_blank(&bytes[marker_of(kind).len().min(bytes.len())..])
}

/// Whether bytes are the marker of a kind, and spaces and tabs after it.
#[tactic(auto, using(crate::proofs::AlertLemmas::marker_fits))]
fn is_marked(kind: AlertKind, bytes: &[u8]) -> bool
    ensures value { result ≡ alert.is_marked kind bytes.now }
    ensures bound { result ≡ true → length (alert.marker_of kind) ≤ length bytes.now }
{
    has_marker(kind, bytes) && ends_after(kind, bytes)
}

/// The kind whose marker bytes are.
fn kind_of(bytes: &[u8]) -> Option<AlertKind>
    ensures value { result ≡ alert.first_kind (λ kind. alert.is_marked kind bytes.now) alert.kinds }
    ensures bound { IfSome result (λ kind. length (alert.marker_of kind) ≤ length bytes.now) }
{
    if is_marked(AlertKind::Note, bytes) {
        Some(AlertKind::Note)
    } else if is_marked(AlertKind::Tip, bytes) {
        Some(AlertKind::Tip)
    } else if is_marked(AlertKind::Important, bytes) {
        Some(AlertKind::Important)
    } else if is_marked(AlertKind::Warning, bytes) {
        Some(AlertKind::Warning)
    } else if is_marked(AlertKind::Caution, bytes) {
        Some(AlertKind::Caution)
    } else {
        None
    }
}

/// The kind of the alert whose marker is the rest of a line: a small indent, the marker, and spaces and tabs up to the
/// end.
#[tactic(auto, unfolding(md_meaning::specs::Alert::alert_at))]
pub fn alert_at(options: &ParseOptions, rest: &Rest) -> Option<AlertKind>
    ensures value { result ≡ alert.alert_at options.now (rest_meaning rest.now) }
    ensures bound { IfSome result (λ kind. HasRoom kind (rest_meaning rest.now)) }
{
    if options.constructs.alerts && rest.has_small_indent(options) {
        kind_of(rest.after_indent().bytes)
    } else {
        None
    }
}

/// What is left of a line after the marker of a kind, and after the whitespace there.
pub fn after_marker<'a>(kind: AlertKind, rest: &Rest<'a>) -> Rest<'a>
    requires { HasRoom kind (rest_meaning rest.now) }
    ensures { rest_meaning result ≡
        r.after_indent (r.following (length (alert.marker_of kind)) (r.after_indent (rest_meaning rest.now))) }
{
    rest.after_indent()
        .following(marker_of(kind).len())
        .after_indent()
}
