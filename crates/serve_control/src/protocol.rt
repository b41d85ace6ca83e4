ghost use Rattle.std.specs.List.{list_any};
ghost use Rattle.std.specs.Prelude.{◌≡◌};
ghost use Rattle.serve_control.specs.Protocols.{is_control, is_of_another_protocol, without_return};

/// Whether a line is the request line of HTTP/1, or has a control character other than a tab. A browser sends such a
/// line, perhaps for a page of another site. The lines that follow are not from the interlocking.
pub(crate) fn is_of_another_protocol(row: &[u8]) -> bool
    ensures { result ≡ is_of_another_protocol row.now }
{
    let row = without_return(row);
    row.ends_with(b" HTTP/1.0") || row.ends_with(b" HTTP/1.1") || has_control(row)
}

// The line without a carriage return at its end.
fn without_return(row: &[u8]) -> &[u8]
    ensures { result.now ≡ without_return row.now }
{
    match row.strip_suffix(b"\r") {
        Some(rest) => rest,
        None => row,
    }
}

// Whether the bytes have a control character other than a tab.
fn has_control(bytes: &[u8]) -> bool
    ensures { result ≡ list_any is_control bytes.now }
{
    bytes
        .iter()
        .any(|byte| byte.is_ascii_control() && *byte != b'\t')
}
