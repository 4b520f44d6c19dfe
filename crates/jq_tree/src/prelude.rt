//! The functions that are written in jq.

/// The definitions that come before every filter, in jq itself.
///
/// They are those of the manual of jq 1.7 ("Builtin operators and functions" and the sections after it), with the helpers
/// `_assign` and `_modify` for the assignments. A filter is read as if this text came before it.
pub const PRELUDE: &str = r#"def select(f): if f then . else empty end;
def map(f): [.[] | f];
def values: select(. != null);
def nulls: select(. == null);
def booleans: select(type == "boolean");
def numbers: select(type == "number");
def strings: select(type == "string");
def arrays: select(type == "array");
def objects: select(type == "object");
def iterables: select(type == "array" or type == "object");
def scalars: select(type != "array" and type != "object");
def error: error(.);
def recurse(f): def r: ., (f | r); r;
def recurse(f; c): def r: ., (f | select(c) | r); r;
def recurse: recurse(.[]?);
def first(f): label $out | (f | ., break $out);
def last(f): reduce f as $x (null; $x);
def isempty(g): label $out | (g | false, break $out), true;
def limit($n; f): if $n > 0 then label $out | foreach f as $x (0; . + 1; $x, if . >= $n then break $out else empty end) elif $n == 0 then empty else f end;
def until(c; f): def r: if c then . else (f | r) end; r;
def while(c; f): def r: if c then ., (f | r) else empty end; r;
def repeat(f): def r: ., (f | r); r;
def range($n): range(0; $n);
def first: .[0];
def last: .[-1];
def nth($n): .[$n];
def nth($n; f): if $n < 0 then error("Out of bounds negative array index") else last(limit($n + 1; f)) end;
def any(g; c): isempty(first(g | c or empty)) | not;
def any(f): any(.[]; f);
def any: any(.);
def all(g; c): isempty(first(g | c and empty));
def all(f): all(.[]; f);
def all: all(.);
def add: reduce .[] as $x (null; . + $x);
def _assign(ps; $v): reduce path(ps) as $p (.; setpath($p; $v));
def _modify(ps; u): reduce path(ps) as $p ([., []]; . as [$x, $d] | label $out | (($x | getpath($p) | u) as $v | [($x | setpath($p; $v)), $d], break $out), [$x, $d + [$p]]) | . as [$x, $d] | $x | delpaths($d);
def map_values(f): .[] |= f;
def paths: path(..) | select(length > 0);
def paths(f): . as $dot | paths | select(. as $p | $dot | getpath($p) | f);
def leaf_paths: paths(scalars);
def del(f): delpaths([path(f)]);
def pick(f): . as $top | reduce path(f) as $p (null; setpath($p; $top | getpath($p)));
def to_entries: [keys[] as $k | {key: $k, value: .[$k]}];
def from_entries: reduce .[] as $e ({}; . + {($e | if .key == null then .k // .name // .Name // .K // .Key else .key end | if type == "string" then . else tojson end): ($e | if has("value") then .value elif has("v") then .v elif has("Value") then .Value else .V end)});
def with_entries(f): to_entries | map(f) | from_entries;
def walk(f): def w: if type == "object" then map_values(w) elif type == "array" then map(w) else . end | f; w;
def join($x): reduce .[] as $i (null; (if . == null then "" else . + $x end) + ($i | if type == "boolean" or type == "number" then tojson else . // "" end)) // "";
def flatten: flatten(1000000000);
def in(xs): . as $x | xs | has($x);
def inside(xs): . as $x | xs | contains($x);
def IN(s): any(s == .; .);
def IN(t; s): any(t == s; .);
def sort_by(f): _sort_by(map([f]));
def group_by(f): _group_by(map([f]));
def unique_by(f): _unique_by(map([f]));
def min_by(f): _min_by(map([f]));
def max_by(f): _max_by(map([f]));
def sort: sort_by(.);
def unique: unique_by(.);
def min: min_by(.);
def max: max_by(.);
def halt_error: halt_error(5);
"#;
