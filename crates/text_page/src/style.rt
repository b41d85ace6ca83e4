//! The style of the page, and the text around its contents. A running line's page and a print share them.

/// The text before the title.
pub(crate) const HEAD: &str = "<!doctype html>
<html lang='en'><head><meta charset='utf-8'><meta name='viewport' content='width=device-width'>
<meta name='color-scheme' content='light dark'><link rel='icon' href='data:,'>
<title>";

/// Without a script, the page of a running line reloads itself.
pub(crate) const REFRESH: &str = "</title>
<noscript><meta http-equiv='refresh' content='2'></noscript>
";

/// The page of a print must not load anything, whatever it contains.
pub(crate) const SEALED: &str = "</title>
<meta http-equiv='Content-Security-Policy' content='default-src &#39;none&#39;; style-src &#39;unsafe-inline&#39;;
 script-src &#39;unsafe-inline&#39;; img-src data:'>
";

/// The style, and the text after it. `bench/serve/contrast` computes the contrast of its colours.
pub(crate) const STYLE: &str = "<style>
:root{--page:#f3f5f8;--panel:#fff;--head:#e7ebf0;--edge:#cfd6de;--rule:#7d8894;--ink:#1a1f26;--soft:#4a535d;
--shut:#dce1e7;--hatch:#b9c1cb;--kept:#fbefc9;--dot:#c9a227;--bad:#b3261e;--alarm:#fde7e4;--mark:#fff0b3;
--focus:#0b57d0;
--c0:#1560a8;--c1:#a84c08;--c2:#1b7a34;--c3:#8b2fa0;--c4:#0b6f7a;--c5:#a3244f;--c6:#6b5a00;--c7:#4348b5}
@media(prefers-color-scheme:dark){
:root{--page:#0f1317;--panel:#171c22;--head:#222931;--edge:#343d47;--rule:#7e8a97;--ink:#e8ecf1;--soft:#aeb8c3;
--shut:#2a323b;--hatch:#46515d;--kept:#443a17;--dot:#b3942c;--bad:#ff8f87;--alarm:#431e1c;--mark:#4a4014;
--focus:#8ab8ff;
--c0:#6db3f7;--c1:#f2a355;--c2:#62c97c;--c3:#dd97ee;--c4:#4fc7d4;--c5:#f58bb0;--c6:#d6c252;--c7:#a7acff}}
*{box-sizing:border-box}
body{font:14px/1.4 system-ui,sans-serif;color:var(--ink);background:var(--page);margin:0 auto;padding:10px 16px 24px;
max-width:2400px}
header{display:flex;gap:4px 16px;align-items:baseline;flex-wrap:wrap;padding-bottom:2px}
h1{font-size:19px;margin:0}h2{font-size:15px;margin:16px 0 6px}p{margin:4px 0}.when,.live{color:var(--soft)}
.live{margin-left:auto}
#lost{color:var(--panel);background:var(--bad);padding:2px 10px;border-radius:4px;font-weight:bold}
#lost:empty{display:none}.old main{filter:grayscale(1)}
.skip{position:absolute;left:-99em}.skip:focus{left:16px;top:6px;z-index:3}
button{font:inherit;font-weight:bold;color:inherit;background:none;border:1px solid var(--rule);border-radius:4px;
padding:0 7px;cursor:pointer}.skip,button[aria-pressed=true]{background:var(--ink);color:var(--panel)}
:focus-visible{outline:3px solid var(--focus);outline-offset:2px}
.alert{background:var(--alarm);border-left:5px solid var(--bad);padding:3px 10px;margin:4px 0}
figure{margin:8px 0;background:var(--panel);border:1px solid var(--edge);border-radius:6px;padding:4px 6px}
figcaption{font-size:13px;color:var(--soft)}figcaption b{color:var(--ink)}svg{display:block}
svg text{font:11px system-ui,sans-serif;text-anchor:middle;fill:var(--ink)}
.no,.km{font-size:10px}.km{fill:var(--soft)}.no{paint-order:stroke;stroke:var(--panel);stroke-width:2.5px}
.s rect{stroke:var(--rule);stroke-width:.7}.open{fill:var(--panel)}.shut{fill:url(#hatch)}.kept{fill:url(#dots)}
.given{fill:currentColor;fill-opacity:.18}#hatch rect{fill:var(--shut)}#hatch path{stroke:var(--hatch);stroke-width:3}
#dots rect{fill:var(--kept)}#dots circle{fill:var(--dot)}.tick{stroke:var(--rule);stroke-width:.6}
.home rect{fill:currentColor}.home text{fill:var(--panel);font-weight:bold}
.border{stroke:var(--ink);stroke-width:1.6;stroke-dasharray:5 3;fill:none}
.place{stroke:var(--ink);stroke-width:4;fill:none}svg .at{font-size:9px;text-anchor:start}
.block{fill:currentColor;stroke:var(--panel);stroke-width:.8}.hand{stroke:currentColor;stroke-width:3;fill:none}
.pool{stroke:currentColor;stroke-width:3;stroke-dasharray:3 4;fill:none}
.sign{fill:var(--bad);stroke:var(--bad);stroke-width:2}.lead{stroke:var(--rule);stroke-width:.8;fill:none}
.label{font-weight:bold;paint-order:stroke;stroke:var(--panel);stroke-width:3px}.label tspan{fill:currentColor}
g[role=button]:focus-visible{outline:none}
g[role=button]:focus-visible .label{stroke:var(--focus);stroke-width:8px;stroke-linejoin:round}
g[role=button]:focus-visible text *,g[role=button]:focus-visible text{fill:var(--panel)}
g[role=button]:focus-visible .block{stroke:var(--focus);stroke-width:3}
[data-t]{cursor:pointer}.h0{color:var(--c0)}.h1{color:var(--c1)}.h2{color:var(--c2)}.h3{color:var(--c3)}
.h-1{color:var(--soft)}.h4{color:var(--c4)}.h5{color:var(--c5)}.h6{color:var(--c6)}.h7{color:var(--c7)}
.chip{padding:0 7px;border-radius:4px;border:2px solid;font-weight:bold}
details{background:var(--panel);border:1px solid var(--edge);border-radius:6px;padding:3px 10px;font-size:13px}
summary{cursor:pointer;font-weight:bold}.key{display:grid;gap:2px 18px;margin:4px 0;
grid-template-columns:repeat(auto-fill,minmax(215px,1fr))}.key span{display:flex;gap:8px;align-items:center}
.key svg{flex:none}.chips{display:flex;gap:6px;flex-wrap:wrap;align-items:center;margin-bottom:4px}
.two{display:grid;gap:0 24px;align-items:start;grid-template-columns:minmax(0,1fr)}.wide{overflow-x:auto}
table{border-collapse:separate;border-spacing:0;background:var(--panel);font-size:13px;border:solid var(--edge);
border-width:1px 0 0 1px}th,td{border:solid var(--edge);border-width:0 1px 1px 0;padding:2px 7px;text-align:left;
vertical-align:top}th[scope=col]{background:var(--head)}tbody th{position:sticky;left:0;background:var(--panel)}
.n{text-align:right;font-variant-numeric:tabular-nums}.n,.part{white-space:nowrap}meter{width:40px}
ol{margin:0;padding:0;list-style:none;font-size:12px;border:solid var(--edge);border-width:1px 1px 0;max-width:900px}
li{border-bottom:1px solid var(--edge);padding:2px 6px;background:var(--panel);overflow-wrap:anywhere}
nav{position:sticky;top:0;z-index:2;background:var(--page);padding:4px 0}nav label{display:flex;gap:10px}
nav input{flex:1;min-width:0}output{min-width:5em}
@media(min-width:1250px){.two{grid-template-columns:minmax(0,auto) minmax(440px,1fr)}}
@media(min-width:1001px){.wide{overflow:visible}th[scope=col]{position:sticky;top:0;z-index:1}
nav~main th[scope=col]{top:30px}}
@media(max-width:1000px){.wide table{white-space:nowrap}main>table{display:block;overflow-x:auto}}
@media(max-width:600px){body{padding:8px 8px 20px}figure{padding:3px 2px}}
</style><style id='pick'></style></head><body><header>";

/// The slider over the events of a print.
pub(crate) const SLIDER: &str =
    "<nav hidden><label>Event <input type='range'> <output></output></label></nav>";
