//! The beginning and the end of a file.

/// The head of a file, with its style, and the tags up to its contents. Nothing is loaded, and no script runs: its policy forbids both to
/// the browser.
pub const BEGIN: &str = "<!doctype html>
<html lang='en'>
<head>
<meta charset='utf-8'>
<meta name='viewport' content='width=device-width, initial-scale=1'>
<meta http-equiv='Content-Security-Policy' content=\"default-src 'none'; style-src 'unsafe-inline'\">
<title>wdreport</title>
<style>
:root {
  color-scheme: light dark;
  --page: #ffffff; --ink: #1b1f24; --soft: #59636e; --line: #d8dde3; --sunk: #f5f6f8;
  --good: #1a7f4b; --bad: #b3261e; --warn: #8a5a00; --none: #59636e;
  --mark: #ffe3bd; --edge: #d9660a; --minus: #fde4e1; --plus: #dcf3e4;
}
@media (prefers-color-scheme: dark) {
  :root {
    --page: #15181c; --ink: #e6e8eb; --soft: #9aa4b0; --line: #363d46; --sunk: #1d2127;
    --good: #4cc38a; --bad: #ff8a80; --warn: #e0b050; --none: #9aa4b0;
    --mark: #57390f; --edge: #f0a04b; --minus: #4a2321; --plus: #173c28;
  }
}
* { box-sizing: border-box; }
body { margin: 0; background: var(--page); color: var(--ink); font: 16px/1.5 system-ui, sans-serif; }
main { max-width: 72rem; margin: 0 auto; padding: 1.5rem 1rem 4rem; }
h1 { font-size: 1.6rem; line-height: 1.2; margin: 0 0 .5rem; }
h2 { font-size: 1.15rem; margin: 0 0 .5rem; overflow-wrap: anywhere; }
h3 { font-size: 1rem; margin: 1.4rem 0 .4rem; }
p { margin: .4rem 0; max-width: 46rem; overflow-wrap: anywhere; }
a { color: inherit; text-underline-offset: .15em; }
section { border-top: 1px solid var(--line); margin-top: 2.2rem; padding-top: 1.4rem; }
footer { border-top: 1px solid var(--line); margin-top: 2.2rem; padding-top: 1rem; color: var(--soft); font-size: .875rem; }
pre, code, td, .caret { font-family: ui-monospace, 'Cascadia Mono', Menlo, Consolas, 'DejaVu Sans Mono', monospace; }
pre { margin: 0; padding: .8rem; background: var(--sunk); border-radius: 6px; font-size: .8125rem; line-height: 1.5;
  overflow-x: auto; tab-size: 4; }
code { font-size: .875em; }
mark { background: var(--mark); color: inherit; border-bottom: 2px solid var(--edge); }
del, ins { display: block; text-decoration: none; padding: 0 .4rem; margin: 0 -.4rem; width: max-content; min-width: calc(100% + .8rem); }
del { background: var(--minus); }
ins { background: var(--plus); }
.scroll { overflow-x: auto; }
table { border-collapse: collapse; font-size: .8125rem; }
th, td { border: 1px solid var(--line); padding: .2rem .6rem; text-align: left; vertical-align: top; white-space: pre; }
th { background: var(--sunk); font-weight: 600; }
.number { text-align: right; font-variant-numeric: tabular-nums; }
.null, .soft { color: var(--soft); }
.null { font-style: italic; }
.differs { background: var(--mark); font-weight: 600; }
h2 > span, summary { white-space: normal; }
header table { width: 100%; font-size: .875rem; }
header th, header td { white-space: normal; overflow-wrap: anywhere; font-family: inherit; border-width: 1px 0; }
.side { display: flex; flex-wrap: wrap; gap: .6rem 1.6rem; align-items: flex-start; }
figure { margin: 0; max-width: 100%; }
figcaption { font-weight: 600; font-size: .875rem; margin-bottom: .2rem; overflow-wrap: anywhere; }
.bar { display: flex; height: 1.1rem; margin: 1rem 0 .6rem; border-radius: 6px; overflow: hidden; gap: 2px; }
.bar span { min-width: 4px; }
.bar .deterministic, .chip.deterministic { background: var(--good); }
.bar .depends { background: var(--bad); }
.bar .may-tie { background: var(--warn); }
.bar .not-read { background: var(--none); }
ul { list-style: none; margin: 0 0 1.2rem; padding: 0; display: flex; flex-wrap: wrap; gap: .2rem 1.4rem; }
ol { margin: .4rem 0; padding-left: 1.4rem; }
li.deterministic::before, li.depends::before, li.may-tie::before, li.not-read::before,
span.deterministic::before, span.depends::before, span.may-tie::before, span.not-read::before {
  content: ''; display: inline-block; width: .7em; height: .7em; border-radius: 50%; margin-right: .45em; background: currentColor; }
.bar span::before { display: none !important; }
span.deterministic, span.depends, span.may-tie, span.not-read { font-weight: 600; white-space: nowrap; }
.deterministic { color: var(--good); }
.depends { color: var(--bad); }
.may-tie { color: var(--warn); }
.not-read { color: var(--none); }
section.deterministic, section.depends, section.may-tie, section.not-read { color: inherit; }
li.deterministic, li.depends, li.may-tie, li.not-read { font-variant-numeric: tabular-nums; }
.caret { color: var(--bad); font-weight: 700; }
details { margin: 1rem 0 0; }
summary { cursor: pointer; font-weight: 600; padding: .2rem 0; }
details > pre, details > div { margin-top: .4rem; }
.node { border: 1px solid var(--line); border-radius: 6px; padding: .5rem .6rem; margin: 0 0 .4rem; background: var(--page); font-size: .875rem; }
.node .node { background: var(--sunk); }
.node .node .node { background: var(--page); }
.node .node .node .node { background: var(--sunk); }
.node p { margin: .1rem 0; max-width: none; }
.does { font-weight: 600; margin-right: .4rem; }
.rule { color: var(--good); font-weight: 600; }
.open { color: var(--edge); font-weight: 600; }
@media (max-width: 40rem) {
  header tr { display: block; padding: .5rem 0; border-bottom: 1px solid var(--line); }
  header th { display: none; }
  header td { display: inline; padding: 0 .5rem 0 0; border: 0; }
}
@media print { details > * { display: block; } pre { white-space: pre-wrap; } }
</style>
</head>
<body>
<main>
";

/// What follows the contents of a file.
pub const END: &str = "</main>
</body>
</html>
";
