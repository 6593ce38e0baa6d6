//! How a page looks.

/// The style of a page, for a screen in light and in dark, and for paper.
pub(crate) const STYLE: &str = "\
:root { color-scheme: light dark; --ground: #ffffff; --ink: #1f2328; --faint: #59636e; --line: #d1d9e0; --band: #f6f8fa; \
--bad: #b42318; --bad-ground: #fef3f2; --warn: #8a5300; --warn-ground: #fff8e6; --good: #116329; }
@media (prefers-color-scheme: dark) { :root { --ground: #0d1117; --ink: #e6edf3; --faint: #9198a1; --line: #30363d; --band: #161b22; \
--bad: #ff8a80; --bad-ground: #2d1416; --warn: #f0b429; --warn-ground: #2b2111; --good: #4ac26b; } }
body { margin: 0 auto; max-width: 76rem; padding: 1rem 1.5rem 3rem; background: var(--ground); color: var(--ink); \
font: 15px/1.45 system-ui, 'DejaVu Sans', sans-serif; }
h1 { font-size: 1.5rem; margin: .5rem 0; } h2 { font-size: 1.15rem; margin: 2rem 0 .25rem; }
p { margin: .25rem 0; } a { color: inherit; }
.sum { font-size: 1.1rem; font-weight: 600; } .good { color: var(--good); } .critical { color: var(--bad); } .warning { color: var(--warn); } .open { color: var(--warn); } .follows { color: var(--faint); }
.wide { overflow-x: auto; }
table { border-collapse: collapse; width: 100%; font-variant-numeric: tabular-nums; margin-top: .5rem; }
th { text-align: left; font-weight: 600; color: var(--faint); font-size: .85rem; border-bottom: 1px solid var(--line); }
th, td { padding: .3rem .6rem; vertical-align: top; } td { border-top: 1px solid var(--line); }
.number { text-align: right; white-space: nowrap; } .id { font-family: 'DejaVu Sans Mono', Menlo, Consolas, monospace; font-size: .87rem; white-space: nowrap; }
.name { font-weight: 600; overflow-wrap: anywhere; min-width: 9rem; } .leads .name::after { content: ' grandmaster'; color: var(--faint); font-weight: 400; font-size: .85rem; }
.unseen td { color: var(--faint); font-style: italic; } .faint { color: var(--faint); }
.found td { border-top: 0; padding-top: 0; } .found p { border-left: 3px solid; padding: .2rem .6rem; margin: .15rem 0; overflow-wrap: anywhere; }
.found .critical { background: var(--bad-ground); } .found .warning { background: var(--warn-ground); } .found .follows { font-size: .87rem; } .found .open { border-left-style: dashed; }
.found span { color: var(--ink); } .found .faint { color: var(--faint); background: none; }
:target td { background: var(--band); }
@media print { :root { --ground: #fff; --ink: #000; --faint: #444; --line: #bbb; --bad: #8b0000; --bad-ground: #fff; --warn: #5c3a00; --warn-ground: #fff; --good: #064e1c; }
body { max-width: none; padding: 0; font-size: 10pt; } tr { break-inside: avoid; } thead { display: table-header-group; } .clock { break-after: avoid; } .wide { overflow: visible; } a { text-decoration: none; } }
";
