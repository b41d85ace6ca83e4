//! The script that draws the line, for a running line's page and for a print. An event changes only the
//! elements that differ, so a reader's focus, selection and place on the page stay.

/// Draws the line. Each text that is drawn stays a text.
pub(crate) const DRAW: &str =
    "const main=document.querySelector('main'),header=document.querySelector('header');
const lost=document.getElementById('lost'),pick=document.getElementById('pick');
const fill=(e,attributes,parts)=>{
  for(const a in attributes)if(attributes[a]!=null)e.setAttribute(a,attributes[a]);
  e.append(...parts.filter(it=>it!=null&&it!==''));return e};
const tag=(name,attributes={},...parts)=>fill(document.createElement(name),attributes,parts);
const draw=(name,attributes={},...parts)=>
  fill(document.createElementNS('http://www.w3.org/2000/svg',name),attributes,parts);
const rows=table=>table.slice(1).map(row=>Object.fromEntries(table[0].map((column,i)=>[column,row[i]])));
const colour=centre=>'h'+line.centres.findIndex(it=>it.centre==centre)%8;
const chip=centre=>centre==null?'nobody':tag('span',{class:'chip '+colour(centre)},centre);
const metres=m=>m.toLocaleString('en').replaceAll(',',String.fromCharCode(8239))+' m';
const front=it=>Math.ceil(it.front_m),end=it=>it.last==null?null:line.sections[it.last].to_m;
const time=it=>it&&tag('time',{datetime:it},it.slice(11)+' · ');
let line,marked='',legend=[],shown;

// Changes the drawn elements into the new ones. An element of the same name and key stays in place, with its focus, its
// selection and its tooltip.
const named=it=>it.nodeName+(it.dataset?.k??'');
function change(was,now){
  if(was==now)return;
  if(was.nodeType==3){if(was.data!=now.data)was.data=now.data;return}
  for(const it of [...was.attributes])if(!now.hasAttribute(it.name))was.removeAttribute(it.name);
  for(const it of now.attributes)if(was.getAttribute(it.name)!=it.value)was.setAttribute(it.name,it.value);
  place(was,[...now.childNodes])}
function place(parent,parts){
  const old=new Map();
  for(const it of [...parent.childNodes].reverse()){
    const name=named(it),alike=old.get(name);
    if(alike)alike.push(it);else old.set(name,[it])}
  const now=parts.map(it=>{const was=old.get(named(it))?.pop();if(was)change(was,it);return was??it});
  const kept=new Set(now);
  for(const it of [...parent.childNodes])if(!kept.has(it))it.remove();
  now.forEach((it,i)=>{if(parent.childNodes[i]!=it)parent.insertBefore(it,parent.childNodes[i]??null)})}
function update(parts){
  const had=document.activeElement;
  place(main,parts);
  if(had!=document.activeElement)
    (had.isConnected?had:main.querySelector(`g[role=button][data-t='${had.dataset.t}']`))?.focus({preventScroll:true})}

// The shapes of a track, for the diagram and the legend. The sections lie between 60 and 90.
const shape={
  section:(state,from,to)=>draw('rect',{class:state,x:from,y:60,width:to-from,height:30}),
  train:(rear,front)=>draw('path',{class:'block',d:`M${rear} 63H${front}l6 6l-6 6H${rear}z`}),
  place:(rear,front)=>draw('path',{class:'place',d:`M${rear} 56H${front}`}),
  authority:(from,to)=>draw('path',{class:'hand',d:`M${from} 69H${to}M${to} 62v14`}),
  lent:(from,to)=>draw('path',{class:'pool',d:`M${from} 69H${to}`}),
  asked:x=>draw('path',{class:'sign',d:`M${x} 60m-6 -9h12l-6 9zm6 9v30`}),
  wished:(from,to)=>draw('path',{class:'sign',d:`M${from} 93H${to}M${(from+to)/2} 93m-5 9l5 -8l5 8z`}),
  border:x=>draw('path',{class:'border',d:`M${x} 52v67`}),
  home:(name,from,to)=>draw('g',{class:'home '+colour(name)},draw('rect',{x:from,y:104,width:to-from,height:15}),
    to-from<8*name.length?null:draw('text',{x:(from+to)/2,y:115.5},name)),
  label:(it,x,y)=>draw('text',{class:'label',x,y},it.train+' ',draw('tspan',{},whose(it)))};
const whose=it=>(it.supervisor??'–')+(it.handover_to?'→'+it.handover_to:'');
const wide=it=>6.8*(it.train+' '+whose(it)).length+8;

const said=it=>[`train ${it.train}`,
  it.supervisor==null?'on the way from one centre to the next':`supervised by ${it.supervisor}`,
  it.handover_to&&`handover to ${it.handover_to} announced`,`front end at ${metres(front(it))} of ${it.track}`,
  it.last==null?'no authority':`authority to ${metres(end(it))}`,
  it.asked_to_keep!=null&&`asked to end at ${metres(line.sections[it.asked_to_keep].to_m)}`].filter(it=>it).join(', ');

function scale(long,width,x){
  const step=[100,200,500,1e3,2e3,5e3,1e4,2e4,5e4,1e5,2e5,5e5,1e6].find(it=>x(it)-x(0)>=64)??long,parts=[];
  for(let m=0;m<=long;m+=step){
    const anchor=m?x(m)>width-24?'end':'middle':'start';
    parts.push(draw('path',{class:'tick',d:`M${x(m)} 119v4`}),
      draw('text',{class:'km',x:x(m),y:133,style:'text-anchor:'+anchor},m/1e3+' km'))}
  return parts}

function sections(name,now,x){
  return now.sections.filter(it=>it.track==name).map(it=>{
    const train=now.trains.find(t=>t.train==it.train),from=x(it.from_m),to=x(it.to_m);
    const many=it.first==it.last?`section ${it.first}`:`sections ${it.first} to ${it.last}`;
    const words={open:'released',shut:'not released',given:'in the authority of',kept:'kept for'}[it.state];
    const title=`${many}, home ${it.home}: ${words}`+(it.train?` train ${it.train}`:'')+(it.wished?', wished back':'');
    return draw('g',{class:'s '+(it.state=='given'&&train?colour(train.supervisor):''),'data-k':it.first,
      'data-t':it.train,role:'img'},draw('title',{},title),
      shape.section(it.state,from,to),it.wished?shape.wished(from,to):null)})}

function trains(name,now,x,width){
  const own=now.trains.filter(it=>it.track==name),lanes=[0,0,0,0],at=new Map();
  for(const it of [...own].sort((a,b)=>a.front_m-b.front_m)){
    const half=wide(it)/2,middle=Math.min(Math.max(x(it.front_m),half),width-half);
    let lane=lanes.findIndex(free=>free<=middle-half);
    if(lane<0)lane=lanes.indexOf(Math.min(...lanes));
    lanes[lane]=middle+half;
    at.set(it,[middle,46-13*lane])}
  const leads=own.map(it=>draw('path',{class:'lead','data-k':'l'+it.train,'data-t':it.train,
    d:`M${x(it.front_m)} ${at.get(it)[1]+3}V62`}));
  return [lanes.filter(it=>it).length,[...leads,...own.map(it=>{
    const head=x(it.front_m),rear=Math.min(it.rear_m==null?head-6:x(Math.max(0,it.rear_m)),head-4);
    const [middle,y]=at.get(it),words=said(it),to=s=>x(line.sections[s].to_m);
    return draw('g',{class:colour(it.supervisor),'data-k':'t'+it.train,'data-t':it.train,tabindex:0,role:'button',
      'aria-label':words,'aria-pressed':it.train==marked},draw('title',{},words),
      it.last==null?null:shape.authority(head,to(it.last)),
      it.lent_last==null?null:shape.lent(x(line.sections[it.lent_first].from_m),to(it.lent_last)),
      shape.train(rear,head),it.asked_to_keep==null?null:shape.asked(to(it.asked_to_keep)),
      shape.label(it,middle,y))})]]}

// The true places of the trains on a track.
const places=(name,now,x,width)=>(now.true_places??[]).filter(it=>it.track==name).map(it=>draw('g',
  {'data-k':'p'+it.train,'data-t':it.train},draw('title',{},`true place of train ${it.train}`),
  shape.place(x(it.rear_m),x(it.front_m)),
  draw('text',{class:'at',x:Math.min(x(it.front_m)+3,width-5*(it.train+'').length),y:59},it.train)));

const tall={};
function track(name,now){
  const own=line.sections.filter(it=>it.track==name);
  if(!own.length)return null;
  const long=own.at(-1).to_m,width=Math.max(300,main.clientWidth-14),x=m=>Math.round(80+m*10*(width-16)/long)/10;
  const parts=sections(name,now,x),homes=[],borders=[];
  let begun=own[0];
  own.forEach((it,i)=>{
    const next=own[i+1],from=x(it.from_m),to=x(it.to_m);
    if(next&&to-from>=4)parts.push(draw('path',{class:'tick',d:`M${to} 60v30`}));
    if(to-from>=20)parts.push(draw('text',{class:'no',x:(from+to)/2,y:86},it.section));
    if(next&&next.home==it.home)return;
    homes.push(shape.home(it.home,x(begun.from_m),to));
    if(next)borders.push(shape.border(to));
    begun=next});
  const [lanes,blocks]=trains(name,now,x,width),high=tall[name]=Math.max(tall[name]??1,lanes),top=45-13*high;
  return tag('figure',{'data-k':name},tag('figcaption',{},'Track ',tag('b',{},name),`, ${long/1e3} km`),
    draw('svg',{viewBox:`0 ${top} ${width} ${136-top}`,width,height:136-top,role:'group','aria-label':'track '+name},
      ...parts,...homes,...borders,...scale(long,width,x),...blocks,...places(name,now,x,width)))}

function explained(demo){
  const a=line.centres[0].centre,b=(line.centres[1]??line.centres[0]).centre,it={train:12,supervisor:a};
  const frame={width:52,height:39,viewBox:'0 52 64 48','aria-hidden':true};
  const icon=(words,parts,centre=a)=>tag('span',{},draw('svg',frame,
    draw('g',{class:colour(centre)},...parts)),words);
  const box=state=>draw('g',{class:'s'},shape.section(state,2,62));
  const low=(...parts)=>[draw('g',{transform:'translate(0 20)'},...parts)];
  const train=it=>low(shape.label(it,32,46),shape.train(20,40));
  const attributes={'data-k':demo?'legend of a demo':'legend',open:innerWidth>700?'':null};
  return tag('details',attributes,tag('summary',{},'Legend'),tag('div',{class:'key'},
    icon('train, its number and its supervising centre',train(it)),
    icon('a handover to another centre is announced',train({...it,handover_to:b})),
    icon('between two centres: nobody supervises it',train({train:12}),null),
    icon('a train’s authority, to its end',[box('given'),shape.authority(18,52),shape.train(6,18)]),
    icon('lent for it beyond its authority',[box('kept'),shape.lent(2,62)]),
    icon('released',[box('open')]),icon('not released',[box('shut')]),
    icon('in an authority, in its supervisor’s colour',[box('given')]),
    icon('kept for a train',[box('kept')]),
    icon('asked back by the interlocking',[box('given'),shape.wished(4,60)]),
    icon('the train is asked to end here',[box('given'),shape.asked(32)]),
    demo?icon('true place (demo only)',low(shape.place(10,44))):null,
    icon('border between two centres',[box('open'),shape.border(32)]),
    icon('home centre of sections',[draw('g',{transform:'translate(0 -36)'},shape.home(a,2,62))])),
    tag('div',{class:'chips'},'Colours of the centres:',...line.centres.map(it=>chip(it.centre))))}

const table=(heads,body,none)=>tag('div',{class:'wide'},tag('table',{},tag('thead',{},tag('tr',{},
  ...heads.map(it=>tag('th',{scope:'col'},it)))),
  tag('tbody',{},...body.length?body:[tag('tr',{},tag('td',{colspan:heads.length},none))])));
const cells=(attributes,[first,...rest])=>tag('tr',attributes,tag('th',{scope:'row'},first),
  ...rest.map(it=>tag('td',typeof it=='string'&&/^[0-9]/.test(it)?{class:'n'}:{},it)));
const section=(name,title,...parts)=>
  tag('section',{'data-k':name,id:name,'aria-label':name,tabindex:-1},tag('h2',{},title),...parts);

function row(it,now){
  const to=end(it),notes=[];
  if(it.asked_to_keep!=null)notes.push(`asked to end at ${metres(line.sections[it.asked_to_keep].to_m)}`);
  if(it.supervisor==null)notes.push('on the way from one centre to the next');
  if(it.ended)notes.push('mission ended');
  if(now.sections.some(s=>s.train==it.train&&s.wished))notes.push('sections wished back');
  const name=tag('button',{'aria-pressed':it.train==marked,'aria-label':said(it)},it.train);
  return cells({'data-k':it.train,'data-t':it.train},[name,
    it.handover_to?tag('span',{},chip(it.supervisor),' → ',chip(it.handover_to)):chip(it.supervisor),it.track,
    it.rear_m==null?'not known':metres(Math.floor(it.rear_m)),metres(front(it)),
    to==null?'none':metres(to),to==null?'':metres(to-front(it)),
    [[it.first,it.last],[it.lent_first,it.lent_last]].filter(([from,to])=>to!=null)
      .map(([from,to])=>from==to?from:from+'–'+to).join(' + '),
    now.sessions.filter(s=>s.train==it.train).map(s=>s.centre+(s.state=='up'?'':` (${s.state})`)).join(', '),
    notes.join(', ')])}

function show(now,words,alerts,more=()=>[]){
  shown=[now,words,alerts,more];
  const heard=new Set(now.sessions.map(it=>it.train)).size;
  const known=[...now.trains,...now.sessions.filter(it=>it.state=='start waits')];
  const left=[...new Set(now.sections.filter(it=>it.train).map(it=>it.train))].filter(t=>!known.some(it=>it.train==t));
  const demo=!!now.true_places?.length;
  legend[+demo]??=explained(demo);
  update([tag('p',{class:'when'},words),
    ...[...alerts,...left.map(t=>`train ${t}: sections are in use for it, and no centre has its mission`)]
      .map(it=>tag('div',{class:'alert',role:'alert','data-k':it},it)),
    ...line.tracks.map(it=>track(it.track,now)).filter(it=>it),legend[+demo],
    tag('div',{class:'two','data-k':'two'},
      section('trains',`Trains: ${now.trains.length} under way, ${heard} with a session`,
        table(['Train','Supervisor','Track','Rear end','Front end','End of authority','Distance to end','Sections',
          'Session with','Remarks'],now.trains.map(it=>row(it,now)),'No train is under way.')),
      tag('div',{class:'side'},section('events','Last events',
        tag('ol',{},...now.last.map(it=>tag('li',{'data-k':it.event},time(it.time),it.event)))),...more()))])}

const mark=t=>{
  marked=t;
  const other=`:not([data-t='${t}'])`;
  pick.textContent=t?`svg [data-t]${other}{opacity:.3}tr[data-t='${t}']>*{background:var(--mark)}`:'';
  if(shown)show(...shown)};
const turned=it=>mark(marked==it.dataset.t?'':it.dataset.t);
document.onclick=e=>{
  const it=e.target.closest('[data-t]');
  if(it&&(e.target.closest('button')||getSelection().isCollapsed))turned(it)};
document.onkeydown=e=>{
  if(e.key=='Escape')mark('');
  if((e.key=='Enter'||e.key==' ')&&e.target.matches('g[data-t]')){e.preventDefault();turned(e.target)}};
onresize=()=>{if(shown)show(...shown)};
const skip=tag('button',{class:'skip'},'To the table of trains');
skip.onclick=()=>document.getElementById('trains')?.focus();
header.prepend(skip);
document.body.append(draw('svg',{width:0,height:0,style:'position:absolute','aria-hidden':true},
  draw('pattern',{id:'hatch',width:7,height:7,patternUnits:'userSpaceOnUse',patternTransform:'rotate(45)'},
    draw('rect',{width:7,height:7}),draw('path',{d:'M1.5 0v7'})),
  draw('pattern',{id:'dots',width:6,height:6,patternUnits:'userSpaceOnUse'},
    draw('rect',{width:6,height:6}),draw('circle',{cx:3,cy:3,r:1}))));
";
